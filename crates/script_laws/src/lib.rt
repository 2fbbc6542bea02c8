//! The round trip of scripts: the one canonical text of a lawful script reads as that script again.
//!
//! The definitions are those of `text_model`. The function here does nothing: it carries the law.
#![tactic(auto)]

ghost use Rattle.text_model.specs.Lawful.{CanonicalTextsAreRead};

/// The canonical text of a lawful script reads as that script again.
pub fn canonical_texts_are_read()
    ensures { CanonicalTextsAreRead }
{}
