use ctss_types::{Sequence, WordList};
use opcode_table::Op;
use word36::Word;

/// The operation of a card: an instruction, or one of the assembler's own.
#[derive(Clone, Copy, Debug, PartialEq, Eq)]
pub enum Operation {
    Machine(Op),
    Pze,
    Org,
    Bss,
    Equ,
    Dec,
    Oct,
    Bci,
    End,
}

/// Which form the field of an operation has.
#[derive(Clone, Copy, Debug, PartialEq, Eq)]
pub enum Form {
    /// At most so many of address, tag and decrement, by commas.
    Parts(u8),
    /// Up to six octal digits.
    OctalHalf,
    Empty,
    /// An expression.
    OneValue,
    /// Signed decimal numbers by commas.
    Decimals,
    /// Up to twelve octal digits each, by commas.
    Octals,
    /// A number of words, a comma, and their characters.
    Characters,
}

/// A term of an expression: a symbol, as a word of six characters, a number below 32768, or this place.
#[derive(Clone, Copy, Debug, PartialEq, Eq)]
pub enum Term {
    Named(Word),
    Number(u16),
    Here,
}

/// Why a card is at fault.
#[derive(Clone, Copy, Debug, PartialEq, Eq)]
pub enum FaultCause {
    /// No operation has the name.
    NoOperation,
    /// The card is too long, or has a character outside the 48.
    Characters,
    /// What stands in the symbol's columns is no symbol.
    BadSymbol,
    /// The operation takes no flag.
    Flag,
    /// An EQU has no symbol.
    NoSymbol,
    /// The field isn't of the operation's form.
    BadForm,
    /// The tag is above 7.
    HighTag,
    /// The start lies outside the program's blocks.
    Start,
    /// A symbol of the field has no value.
    Undefined,
    /// An earlier card has the symbol.
    Repeated,
    /// The words pass the last place.
    PastEnd,
}

impl FaultCause {
    ghost use Rattle.std.specs.Prelude.{◌≡◌};
    ghost use Rattle.fap_model.specs.Causes.{number_of};

    /// The number of the fault.
    pub fn number(self) -> u8
        ensures { result ≡ number_of self }
    {
        match self {
            FaultCause::NoOperation => 1,
            FaultCause::Undefined => 3,
            FaultCause::Repeated => 4,
            FaultCause::PastEnd => 5,
            _ => 2,
        }
    }
}

/// What a card comes to: its place, why it is at fault and at which column, if it is, and its words, of which a card at fault
/// has none. Columns are numbered from 1.
#[derive(Debug, Drop)]
pub struct CardRow {
    pub place: u64,
    pub cause: Option<FaultCause>,
    pub column: u8,
    pub words: WordList,
}

/// A symbol and its value.
#[derive(Clone, Copy, Debug, PartialEq, Eq)]
pub struct SymbolValue {
    pub name: Word,
    pub value: u16,
}

/// A card that has a symbol in its columns or its field. Cards are numbered from 1.
#[derive(Clone, Copy, Debug, PartialEq, Eq)]
pub struct Mention {
    pub name: Word,
    pub card: u32,
}

/// What all cards of a program come to, as a listing shows it.
#[derive(Debug, Drop)]
pub struct Listed {
    /// What each card comes to, up to the first END.
    pub rows: Sequence<CardRow>,
    /// The symbols in order of definition.
    pub symbols: Sequence<SymbolValue>,
    /// The cards with a symbol in their columns.
    pub definitions: Sequence<Mention>,
    /// The cards with symbols in their field. One that has a symbol twice is there twice.
    pub uses: Sequence<Mention>,
    pub literals: WordList,
    /// The place behind the last card before END, at which the literals stand.
    pub end_place: u64,
    pub blocks: u64,
    pub start: u16,
    pub has_end: bool,
}
