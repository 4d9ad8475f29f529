//! Laws of the tags of a text. Each is proved once, and there is nothing to run.
ghost use Rattle.std.specs.Prelude.{◌≡◌, ◌↔◌, ℕ, Bool, List, [], ◌∷◌, ◌++◌, Ok, Err};
ghost use Rattle.std.specs.List.{AllByRecursion};
ghost use Rattle.sm_model.specs.declared.tag.Attribute.{Attribute};
ghost use Rattle.sm_model.specs.declared.tag.Tag.{Tag};
ghost use Rattle.sm_tag.specs.declared.grammar.Markup.TheVariants.{Start, Finish, Skipped};
ghost use Rattle.sm_tag.specs.TagParts.{wrong};
ghost use Rattle.sm_tag.specs.TagMarkup.{Starts, Markups, finish_at};
ghost use Rattle.sm_tag.specs.TagText.{IsTagName, AreWritten, attributes_then, closing};
ghost use Rattle.sm_tag.specs.Tags.{TagsOf};
ghost use Rattle.sm_tag.specs.Grammar.{IsStart, IsFinish, IsSkipped, StandsIn};
ghost use Rattle.sm_tag.specs.TagsRead.{tags_of};

/// Every text has a list of tags, and no two. So what is said of some list of its tags is said of the one that
/// [`crate::Tags`] reads.
pub fn text_has_one_list_of_tags()
    ensures some { (text : List ℕ) → TagsOf text (tags_of text) }
    ensures one { (text : List ℕ) (a b : List Tag) → TagsOf text a → TagsOf text b → a ≡ b }
{}

/// Tags that are written plainly are read as they are, whatever follows: the first clause is of a start tag behind its `<`, the
/// second of an end tag behind its `</`.
pub fn written_tags_are_read()
    ensures start { (name : List ℕ) (attributes : List Attribute) (empty : Bool) (rest : List ℕ) → IsTagName name
        → AreWritten [] attributes → Starts (name ++ attributes_then attributes (closing empty rest)) (Ok (Start name attributes empty, rest)) }
    ensures finish { (name rest : List ℕ) → IsTagName name → finish_at (name ++ 62 ∷ rest) ≡ Ok (Finish name, rest) }
{}

/// What is read behind a `<` is what the grammar says: a start tag, an end tag, or a comment or an instruction, whatever
/// follows it.
pub fn tags_are_of_the_grammar()
    ensures start { (bytes name rest : List ℕ) (attributes : List Attribute) (empty : Bool)
        → Markups bytes (Ok (Start name attributes empty, rest)) ↔ ((text : List ℕ) × IsStart text name attributes empty × (60 ∷ bytes ≡ text ++ rest)) }
    ensures finish { (bytes name rest : List ℕ)
        → Markups bytes (Ok (Finish name, rest)) ↔ ((text : List ℕ) × IsFinish text name × (60 ∷ bytes ≡ text ++ rest)) }
    ensures skipped { (bytes rest : List ℕ)
        → Markups bytes (Ok (Skipped, rest)) ↔ ((text : List ℕ) × IsSkipped text × (60 ∷ bytes ≡ text ++ rest)) }
{}

/// Each tag of a text stands at its place in it, made as the grammar says. A fault has the place of a `<`, or the text's
/// length where the text ends too early.
pub fn tags_stand_at_their_places()
    ensures { (text : List ℕ) (tags : List Tag) → TagsOf text tags → AllByRecursion (StandsIn text) tags }
{}

/// What is wrong behind a `<` stays wrong, whatever follows: no longer text has a tag there.
pub fn what_follows_mends_nothing()
    ensures { (bytes more : List ℕ) → Markups bytes (Err wrong) → Markups (bytes ++ more) (Err wrong) }
{}
