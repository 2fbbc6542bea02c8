//! Laws of definitions: beside rules that are written as a walk, what their answers are, in plain words; and laws of
//! modules that are linked (`links`).
//!
//! The words of these laws stand in `specs/`: `Levels` (the level that fits), `Words` (the words of instructions),
//! `Decks` (segments laid end to end, and what they leave in a core), `Cards` (places and symbols), `Assembly` (the
//! assembler's decks as the loader reads them), `SavedPrograms` (saved and resumed), `Operations` (the machine by its
//! operations, without the decoder), `Rows` (worked rows). The functions here do nothing: each carries a law or a row.
#![tactic(auto)]

pub mod links;
pub mod machine;

ghost use Rattle.rule_laws.specs.Levels.{LevelFits};
ghost use Rattle.rule_laws.specs.Words.{CodeIsBack};
ghost use Rattle.rule_laws.specs.Decks.{DeckIsLaid, SegmentsAreStored};
ghost use Rattle.rule_laws.specs.Cards.{PlaceOfCard, ValueOfSymbol};
ghost use Rattle.rule_laws.specs.Assembly.{DeckIsStored};
ghost use Rattle.rule_laws.specs.SavedPrograms.{SavedIsBack};
ghost use Rattle.rule_laws.specs.Rows.{RowOfCodes, RowOfLaid, RowOfCards};

/// A program's level is the greatest of at most 8 whose power of two fits.
pub fn level_fits()
    ensures { LevelFits }
{}

/// A word is an instruction just where the instruction's word is that word but for the positions that its class
/// doesn't use.
pub fn code_is_back()
    ensures { CodeIsBack }
{}

/// A file is a deck just where it is a first word and segments laid end to end; and which refusal it gets else.
pub fn deck_is_laid()
    ensures { DeckIsLaid }
{}

/// Behind a deck's load each place has the word of the last segment that covers it, and else its old one.
pub fn segments_are_stored()
    ensures { SegmentsAreStored }
{}

/// A card's place is what the last ORG without a fault before it says, or 0, and the sizes of the cards since.
pub fn place_of_card()
    ensures { PlaceOfCard }
{}

/// A symbol's value is what the first card that has it gives.
pub fn value_of_symbol()
    ensures { ValueOfSymbol }
{}

/// Cards without a fault are assembled to a deck that is read as END's start and those blocks, and that is stored as
/// the cards' words at their places.
pub fn deck_is_stored()
    ensures { DeckIsStored }
{}

/// A program that was saved and is resumed is the program: its size, its registers and its core.
#[tactic(auto, using(crate::proofs::SavedLaws::saved_is_back))]
pub fn saved_is_back()
    ensures { SavedIsBack }
{}

/// Words with zeros in the positions that their class doesn't use.
#[tactic(auto, using(crate::proofs::RowsComputed::row_of_codes))]
pub fn row_of_codes()
    ensures { RowOfCodes }
{}

/// Two segments laid end to end.
#[tactic(auto, using(crate::proofs::RowsComputed::row_of_laid))]
pub fn row_of_laid()
    ensures { RowOfLaid }
{}

/// Places and symbols of nine cards.
#[tactic(auto, using(crate::proofs::RowsComputed::row_of_cards))]
pub fn row_of_cards()
    ensures { RowOfCards }
{}
