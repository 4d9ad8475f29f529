//! Laws of canonical texts.
ghost use Rattle.std.specs.Prelude.{◌≡◌, ◌++◌, ◌<◌, ◌^◌, ℕ, List, Some, slice_get};
ghost use Rattle.sm_model.specs.declared.fragment.Fragment.{Fragment};
ghost use Rattle.sm_model.specs.declared.sample.Sample.{Sample};
ghost use Rattle.sm_model.specs.Canonical.{Canonical, IsCanonical, IsJoin, text_of};
ghost use Rattle.sm_model.specs.FragText.{frag_text, moof};
ghost use Rattle.sm_model.specs.Written.{IsWritten};
ghost use Rattle.sm_moof.specs.Sequence.{sequence_in};
ghost use Rattle.sm_moof.specs.Shown.{NamesIn, ServesIn};

use sm_model::law::written_fragment_is_read;

/// Where two canonical texts without pairs ahead stand in front of the same bytes, they are one text. So none is a proper prefix of
/// another.
pub fn canonical_texts_are_no_prefixes()
    ensures { (c d : Canonical) (r s : List ℕ) → IsCanonical c → IsCanonical d → text_of c ++ r ≡ text_of d ++ s
        → (c ≡ d) × (r ≡ s) }
{
    written_fragment_is_read();
}

/// What canonical texts one after another make can be cut into canonical texts in one way only.
pub fn joins_are_cut_once()
    ensures { (b : List ℕ) (cs ds : List Canonical) → IsJoin b cs → IsJoin b ds → cs ≡ ds }
{
    canonical_texts_are_no_prefixes();
}

/// A part of a canonical text shows no samples and no duration but those of its fragment, and no pairs ahead but those that
/// it was written with.
pub fn fragments_show_themselves()
    ensures serves { (seq id : ℕ) (f : Fragment) (ahead : List (ℕ × ℕ)) (part more : List ℕ) (samples : List Sample) (duration : ℕ) → IsWritten id f ahead
        → part ++ more ≡ frag_text seq id f ahead → ServesIn part samples duration → (f.samples ≡ samples) × (f.duration ≡ duration) }
    ensures names { (seq id : ℕ) (f : Fragment) (ahead : List (ℕ × ℕ)) (part more : List ℕ) (time : ℕ) → IsWritten id f ahead
        → part ++ more ≡ frag_text seq id f ahead → NamesIn part time → (i duration : ℕ) × (slice_get ahead i ≡ Some (time, duration)) }
{
    written_fragment_is_read();
}

/// The sequence number that a canonical text was written with is found in it.
pub fn written_sequence_is_read()
    ensures { (seq id : ℕ) (f : Fragment) (ahead : List (ℕ × ℕ)) → seq < 2 ^ 32 → IsWritten id f ahead
        → sequence_in (moof seq id f ahead) ≡ Some seq }
{}
