//! How the shelf stands to the log.
ghost use Rattle.std.specs.Prelude.{◌≡◌, ◌≢◌, ◌≤◌, ◌+◌, ◌⊎◌, ℕ, IsErrOf};
ghost use Rattle.sm_model.specs.declared.fragment.Fragment.{Fragment};
ghost use Rattle.sm_archive.specs.declared.fetch.Fetched.TheVariants.{Found, DiskFault, Damaged};
ghost use Rattle.sm_show.specs.declared.outcome.Lack.TheVariants as lack;
ghost use Rattle.sm_show.specs.declared.outcome.Up.TheVariants.{Whole, Behind};
ghost use Rattle.sm_show.specs.Marks.{behind_by, short_by, up_by};
ghost use Rattle.sm_show.specs.Recalling.{had_of};

use sm_archive::Fetched;
use sm_model::Fragment;

/// Why a fragment is not there.
#[derive(Clone, Copy, Debug, PartialEq, Eq)]
pub enum Lack {
    /// The disk failed, or gave other bytes than were written.
    Disk,
    /// Memory was wanting.
    NoMemory,
}

/// How the shelf stands to the log.
#[derive(Clone, Copy, Debug, PartialEq, Eq)]
pub enum Up {
    /// All of the log is published.
    Whole,
    /// Not all: the disk failed.
    Behind,
    /// Not all: memory was wanting.
    Short,
}

/// What a lack makes of the shelf.
pub fn up_of(why: Lack) -> Up
    ensures value { result ≡ up_by why }
    ensures lacks { result ≢ Whole }
    ensures behind { result ≡ Behind → why ≡ lack.Disk }
{
    match why {
        Lack::Disk => Up::Behind,
        Lack::NoMemory => Up::Short,
    }
}

/// The fragment that was fetched. One that is absent is not asked for.
pub fn fragment_in(fetched: Fetched) -> Result<Fragment, Lack>
    ensures value { result ≡ had_of fetched }
    ensures found { (f : Fragment) → result ≡ Ok f → (place : ℕ) × (fetched ≡ Found place f) }
    ensures disk { IsErrOf result lack.Disk → (fetched ≡ DiskFault) ⊎ (fetched ≡ Damaged) }
{
    match fetched {
        Fetched::Found { place: _, fragment } => Ok(fragment),
        Fetched::DiskFault | Fetched::Damaged => Err(Lack::Disk),
        Fetched::Absent | Fetched::NoMemory => Err(Lack::NoMemory),
    }
}

/// Whether a turn counts as one behind which the shelf is behind.
pub fn behind_by(up: Up) -> u64
    ensures value { result ≡ behind_by up }
    ensures one { result + short_by up ≤ 1 }
{
    match up {
        Up::Behind => 1,
        Up::Whole | Up::Short => 0,
    }
}

/// Whether it counts as one behind which memory was wanting.
pub fn short_by(up: Up) -> u64
    ensures value { result ≡ short_by up }
{
    match up {
        Up::Short => 1,
        Up::Whole | Up::Behind => 0,
    }
}
