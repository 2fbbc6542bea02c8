//! Cards of the assembler, read: columns, terms, numbers and fields.
//!
//! A text here is any bytes, of any length; what a card lacks is blank. Nothing but what is given an allocator takes
//! memory, and nothing takes longer than in proportion to the text.
#![tactic(auto)]

mod card;
mod columns;
mod digits;
mod item;
mod layout;
mod number;
mod operations;
mod terms;
mod words;

pub use card::{Card, Cards, Fields, cards_of_text, cards_of_words};
pub use columns::{
    character_count, field, flag, has_bad_symbol, has_symbol, is_bad, is_comment,
    operation_columns, operation_text, symbol,
};
pub use digits::is_symbol;
pub use item::{first_item, item_at, item_count};
pub use layout::fields;
pub use number::{decimal_word, half, literal_word, octal_number};
pub use operations::{form, operation};
pub use terms::{first_term, term};
pub use words::given_words;
