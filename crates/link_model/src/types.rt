use ctss_types::{Sequence, WordList};
use fap_model::{Mention, SymbolValue};
use word36::Word;

/// Why the modules of files aren't linked.
#[derive(Clone, Copy, Debug, PartialEq, Eq)]
pub enum LinkRefusal {
    /// The file of a module isn't there.
    NoFile,
    /// A file's words are no module's.
    BadModule,
    /// The places of all modules together are more than a core has.
    TooLarge,
    /// This name is entered by two of the modules, or twice by one.
    Doubly(Word),
    /// This name is an extern that none of the modules enters.
    Undefined(Word),
}

/// A name that other modules may use, and its place within the module.
#[derive(Clone, Copy, Debug, PartialEq, Eq)]
pub struct ModuleEntry {
    pub name: Word,
    pub place: u16,
}

/// The word of a place, and what is added to its address: nothing for kind 0, the module's first place for kind 1, and for
/// kind 2 + j the place of extern j, counted from 0.
#[derive(Clone, Copy, Debug, PartialEq, Eq)]
pub struct ModulePlace {
    pub kind: u16,
    pub word: Word,
}

/// Entries in order.
pub type EntryList = Sequence<ModuleEntry>;

/// Names in order.
pub type NameList = WordList;

/// Places from the first one on.
pub type PlaceList = Sequence<ModulePlace>;

/// A program's part that may lie anywhere, and names what other parts enter.
#[derive(Debug, Drop)]
pub struct Module {
    /// The place at which a program begins whose first module this is.
    pub start: u16,
    pub entries: EntryList,
    pub externs: NameList,
    pub places: PlaceList,
}

/// What a card of a module comes to, as a listing shows it.
#[derive(Debug, Drop)]
pub struct ModuleRow {
    /// The place before which the card stands.
    pub place: u64,
    /// The number of its fault, 0 where there is none.
    pub fault: u8,
    /// How many places it reserves.
    pub reserved: u64,
    /// The kind of its words. It may pass the kinds of places where cards have more EXTERNs than a module takes.
    pub kind: u64,
    pub words: WordList,
}

/// What all cards of a module come to, as a listing shows it.
#[derive(Debug, Drop)]
pub struct ListedModule {
    /// What each card comes to, up to the first END.
    pub rows: Sequence<ModuleRow>,
    /// The symbols in order of definition.
    pub symbols: Sequence<SymbolValue>,
    /// The cards with a symbol in their columns.
    pub definitions: Sequence<Mention>,
    /// The cards with symbols in their field. One that has a symbol twice is there twice.
    pub uses: Sequence<Mention>,
    pub entries: EntryList,
    pub externs: NameList,
    pub literals: WordList,
    /// The place behind the last card before END, at which the literals stand.
    pub end_place: u64,
    pub start: u16,
    pub has_end: bool,
}
