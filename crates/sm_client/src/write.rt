//! Fragments, written.
ghost use Rattle.std.specs.Prelude.{◌≡◌, ◌≢◌, ℕ, []};
ghost use Rattle.std.specs.Io.KnownBytes.{Keeps};
ghost use Rattle.sm_model.specs.Fragments.{IsValid};
ghost use Rattle.sm_model.specs.FragText.{frag_text};
ghost use Rattle.sm_client.specs.Ends.{HasCause};
ghost use Rattle.sm_client.specs.Calls.{Writes};
ghost use Rattle.sm_client.specs.Dials.{carried_if};

use crate::End;
use crate::stream::Stream;
use sm_ends::Tracks;
use sm_model::Fragment;
use sm_moof::put_fragment;

impl Stream<'_> {
    /// Adds the canonical text of a fragment to its track.
    pub fn write<T: Tracks>(
        &self,
        tracks: &mut T,
        seq: u32,
        id: u32,
        fragment: &Fragment,
    ) -> Option<End>
        requires valid { IsValid fragment.now }
        ensures text { Writes (T.held tracks.old self.now.number) (T.held tracks.new self.now.number) (frag_text seq id fragment.now []) result }
        ensures others { (k : ℕ) → k ≢ self.now.number → Keeps (T.held tracks.old k) (T.held tracks.new k) }
        ensures cause { HasCause (T.faults tracks.old) (T.faults tracks.new) result }
        ensures quiet { carried_if result ≡ [] }
    {
        let Ok(text) = put_fragment(self.alloc, seq, id, fragment, &[]) else {
            return Some(End::NoMemory);
        };
        match tracks.append(self.number, text.as_slice()) {
            Ok(()) => None,
            Err(_) => Some(End::WriteFault),
        }
    }
}
