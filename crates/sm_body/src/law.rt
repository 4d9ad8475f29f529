//! Laws of framed bodies. Each is the contract of a function that does nothing.
ghost use Rattle.std.specs.Prelude.{◌≡◌, ◌≢◌, ◌++◌, ℕ, List};
ghost use Rattle.sm_model.specs.declared.framing.Framing.TheVariants.{Chunked};
ghost use Rattle.sm_body.specs.declared.place.Place.TheVariants.{Ended, Failed};
ghost use Rattle.sm_body.specs.Chunked.{Text, IsText, print_text, text_body};
ghost use Rattle.sm_body.specs.Cuts.{EndsBehind};
ghost use Rattle.sm_body.specs.Places.{start, place_after, body_from};

/// Each chunked text is read to its end exactly, and the data of its chunks are the body.
pub fn texts_are_read()
    ensures ends { (t : Text) → IsText t → place_after (start Chunked) (print_text t) ≡ Ended }
    ensures body { (t : Text) → IsText t → body_from (start Chunked) (print_text t) ≡ text_body t }
{}

/// Whatever is read to its end is a chunked text of the grammar, and its body is the data of its chunks.
pub fn what_ends_is_a_text()
    ensures text { (b : List ℕ) → place_after (start Chunked) b ≡ Ended
        → (t : Text) × IsText t × (b ≡ print_text t) × (body_from (start Chunked) b ≡ text_body t) }
    // However the bytes came in pieces, and with what the steps handed on as the body.
    ensures cut { (passed handed : List ℕ) → EndsBehind (start Chunked) passed handed
        → (t : Text) × IsText t × (passed ≡ print_text t) × (handed ≡ text_body t) }
    // What is refused begins no text.
    ensures refused { (b more : List ℕ) (t : Text) → IsText t → b ++ more ≡ print_text t → place_after (start Chunked) b ≢ Failed }
{}
