ghost use Rattle.std.specs.Prelude.{◌≡◌};
ghost use Rattle.link_model.specs.ModuleCards.{is_relocatable, field_symbol, is_marked};
ghost use Rattle.fap_assemble.specs.Steps.{texts};

use ctss_types::name_word;
use fap_read::{Card, field, flag, has_symbol, is_bad, is_comment, is_symbol, operation_text};
use word36::Word;

/// Whether cards are a module's: the first that is no comment has the operation REL.
pub fn is_module(cards: &[Card]) -> bool
    ensures { result ≡ is_relocatable (texts cards.now) }
{
    for card in cards {
        let text = card.text.as_slice();
        if !is_comment(text) {
            return operation_text(text) == b"REL".as_slice();
        }
    }
    false
}

/// The symbol that a field is.
pub(crate) fn field_symbol(text: &[u8]) -> Option<Word>
    ensures { result ≡ field_symbol text.now }
{
    let symbol = field(text);
    if is_symbol(symbol) {
        Some(name_word(symbol))
    } else {
        None
    }
}

/// Whether a card has characters, a flag or a symbol that REL, ENTRY and EXTERN can't have.
pub(crate) fn is_marked(text: &[u8]) -> bool
    ensures { result ≡ is_marked text.now }
{
    is_bad(text) || flag(text) || has_symbol(text)
}
