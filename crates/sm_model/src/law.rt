//! Laws of the definitions. Each is the contract of a function that does nothing.
ghost use Rattle.std.specs.Prelude.{◌≡◌, ◌≤◌, ◌<◌, ◌+◌, ◌*◌, ◌^◌, ◌↔◌, ℕ, Bool, List, [], ◌∷◌, Some, Ok, Err, length};
ghost use Rattle.std.specs.List.{All};
ghost use Rattle.sm_model.specs.declared.cause.Cause.{Cause};
ghost use Rattle.sm_model.specs.declared.run.Defaults.{Defaults};
ghost use Rattle.sm_model.specs.declared.run.Run.{Run};
ghost use Rattle.sm_model.specs.declared.run.RawFragment.{RawFragment};
ghost use Rattle.sm_model.specs.declared.sample.Sample.{Sample};
ghost use Rattle.sm_model.specs.declared.fragment.Fragment.{Fragment};
ghost use Rattle.sm_model.specs.Boxes.{Box, IsBoxText, IsBoxes, IsOneBox, boxes, box_of};
ghost use Rattle.sm_model.specs.Fragments.{IsWide, sample_bytes};
ghost use Rattle.sm_model.specs.FragText as text;
ghost use Rattle.sm_model.specs.FragText.{tfxd_type, tfrf_type, moof_len, ahead_len};
ghost use Rattle.sm_model.specs.Fields.{tfxd};
ghost use Rattle.sm_model.specs.Frag.{frag, moof_run, finish, last, traf};
ghost use Rattle.sm_model.specs.Sound.{IsSoundRun, IsSoundFragment, LieInOrder};
ghost use Rattle.sm_model.specs.Steps.{and_then};
ghost use Rattle.sm_model.specs.TrackId.{track_id};
ghost use Rattle.sm_model.specs.Written.{IsWritten, IsUserBox, IsPairsBox, run_again, raw_again};

/// The boxes that are computed from bytes are those whose texts, one behind another, are the bytes; none are computed of bytes
/// that are no such join.
pub fn boxes_are()
    ensures all { (b : List ℕ) (xs : List Box) → (boxes b ≡ Some xs) ↔ IsBoxes b xs }
    // One text is read as the box that it is the text of, and nothing else is one whole box.
    ensures one { (b : List ℕ) (x : Box) → IsBoxText b x ↔ (IsOneBox b × (box_of b ≡ x)) }
{}

/// The one list of causes is gone through in two steps: what the `moof` shows alone comes first, and what the `mdat` adds
/// is judged only where the `moof` says a run.
pub fn frag_is_in_two_steps()
    ensures { (d : Defaults) (m md : List ℕ) → frag d m md ≡ and_then (moof_run d m) (last m md) }
{}

/// No cause of a `moof` alone reads the defaults, so it can be told before the track is known.
pub fn causes_are_without_defaults()
    ensures { (d other : Defaults) (m : List ℕ) (cause : Cause) → moof_run d m ≡ Err cause → moof_run other m ≡ Err cause }
{}

/// The track_ID that is found first, with which the defaults are looked up, is the one that a `moof` says.
pub fn track_id_is_of_run()
    ensures { (d : Defaults) (m : List ℕ) (run : Run) → moof_run d m ≡ Ok run → track_id m ≡ Some run.id }
{}

/// Every run that is read has 1 to 65,536 samples, a duration of at least 1 and an end below 2^63. So has every fragment,
/// and its samples' bytes lie one after another in the body of the `mdat`, from the place that the `moof` says on.
pub fn read_is_sound()
    ensures run { (d : Defaults) (m : List ℕ) (run : Run) → moof_run d m ≡ Ok run → IsSoundRun run }
    ensures finish { (size : ℕ) (md : List ℕ) (run : Run) (raw : RawFragment) → IsSoundRun run → finish size md run ≡ Ok raw → IsSoundFragment md raw }
    ensures fragment { (d : Defaults) (m md : List ℕ) (raw : RawFragment) → frag d m md ≡ Ok raw → IsSoundFragment md raw }
    ensures in_order { (d : Defaults) (m md : List ℕ) (raw : RawFragment) → frag d m md ≡ Ok raw → LieInOrder d m md raw }
{}

/// Each size in a canonical text is the length of its box.
pub fn sizes_are_lengths()
    ensures mfhd { (seq : ℕ) → length (text.mfhd seq) ≡ 16 }
    ensures tfhd { (id : ℕ) → length (text.tfhd id) ≡ 16 }
    ensures trun { (start : ℕ) (signed : Bool) (samples : List Sample) → length (text.trun start signed samples) ≡ 20 + 16 * length samples }
    ensures tfxd { (time duration : ℕ) → length (text.tfxd_box time duration) ≡ 44 }
    ensures tfrf { (ahead : List (ℕ × ℕ)) → length (text.tfrf ahead) ≡ ahead_len ahead }
    ensures traf { (id start : ℕ) (f : Fragment) (ahead : List (ℕ × ℕ)) → length (text.traf_box id start f ahead)
        ≡ 88 + 16 * length f.samples + ahead_len ahead }
    ensures moof { (seq id : ℕ) (f : Fragment) (ahead : List (ℕ × ℕ)) → length (text.moof seq id f ahead) ≡ moof_len f.samples ahead }
    ensures mdat { (samples : List Sample) → length (text.mdat samples) ≡ 8 + sample_bytes samples }
{}

/// A canonical fragment is two whole boxes, and is read again as what was written, whatever the defaults.
pub fn written_fragment_is_read()
    ensures moof_whole { (seq id : ℕ) (f : Fragment) (ahead : List (ℕ × ℕ)) → IsWritten id f ahead → IsOneBox (text.moof seq id f ahead) }
    ensures mdat_whole { (id : ℕ) (f : Fragment) (ahead : List (ℕ × ℕ)) → IsWritten id f ahead → IsOneBox (text.mdat f.samples) }
    ensures two_boxes { (seq id : ℕ) (f : Fragment) (ahead : List (ℕ × ℕ)) → IsWritten id f ahead
        → boxes (text.frag_text seq id f ahead) ≡ Some (box_of (text.moof seq id f ahead) ∷ box_of (text.mdat f.samples) ∷ []) }
    ensures moof { (d : Defaults) (seq id : ℕ) (f : Fragment) (ahead : List (ℕ × ℕ)) → IsWritten id f ahead
        → moof_run d (text.moof seq id f ahead) ≡ Ok (run_again id (moof_len f.samples ahead + 8) f ahead) }
    ensures fragment { (d : Defaults) (seq id : ℕ) (f : Fragment) (ahead : List (ℕ × ℕ)) → IsWritten id f ahead
        → frag d (text.moof seq id f ahead) (text.mdat f.samples) ≡ Ok (raw_again id f ahead) }
{}

/// A `traf` that was written is one whole box, and is read again as what was written, whatever the defaults and wherever
/// its samples start.
pub fn written_traf_is_read()
    ensures whole { (id start : ℕ) (f : Fragment) (ahead : List (ℕ × ℕ)) → IsWritten id f ahead → IsOneBox (text.traf_box id start f ahead) }
    ensures run { (d : Defaults) (id start : ℕ) (f : Fragment) (ahead : List (ℕ × ℕ)) → IsWritten id f ahead → start < 2 ^ 32
        → traf d (box_of (text.traf_box id start f ahead)).body ≡ Ok (run_again id start f ahead) }
{}

/// A `tfxd` that was written is one whole box of its user type, and its time and duration are read again.
pub fn written_tfxd_is_read()
    ensures { (time duration : ℕ) → IsWide (time, duration)
        → (body : List ℕ) × IsUserBox (text.tfxd_box time duration) tfxd_type body × (tfxd body ≡ Some (time, duration)) }
{}

/// A `tfrf` that was written is one whole box of its user type, and its pairs are read again.
pub fn written_tfrf_is_read()
    ensures { (ahead : List (ℕ × ℕ)) → length ahead ≤ 255 → All IsWide ahead
        → (body : List ℕ) × IsUserBox (text.tfrf_box ahead) tfrf_type body × IsPairsBox body ahead }
{}
