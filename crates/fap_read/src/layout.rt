ghost use Rattle.std.specs.Prelude.{◌≡◌, ◌+◌, ◌-◌, ◌++◌, length, replicate, take};
ghost use Rattle.fap_model.specs.Cards.{is_comment, is_bad, symbol_columns, operation_of, flag_of, field_of};

use crate::card::{Card, Fields};
use crate::columns::{field, flag, front, is_bad, is_comment, operation_text};
use crate::operations::put_front;

/// Columns 1 to 6.
#[tactic(auto, using(crate::proofs::Blanks::symbol_columns_seen))]
fn symbol_columns(text: &[u8]) -> [u8; 6]
    ensures { result ≡ symbol_columns text.now }
{
    let mut columns = [b' '; 6];
    put_front(front(text, 6), &mut columns);
    columns
}

/// The operation and blanks behind it.
#[tactic(auto, using(crate::proofs::Blanks::blanks_eight))]
fn padded_operation(text: &[u8]) -> [u8; 8]
    ensures { result ≡ operation_of text.now ++ replicate (8 - length (operation_of text.now)) 32 }
{
    let mut columns = [b' '; 8];
    put_front(operation_text(text), &mut columns);
    columns
}

/// What stands where on a card.
pub fn fields(card: &Card) -> Fields
    ensures comment { result.comment ≡ is_comment card.now.text }
    ensures bad { result.bad ≡ is_bad card.now.text }
    ensures symbol { result.symbol ≡ symbol_columns card.now.text }
    ensures operation { result.operation ≡ operation_of card.now.text
        ++ replicate (8 - length (operation_of card.now.text)) 32 }
    ensures flag { result.flag ≡ flag_of card.now.text }
    ensures end { result.end ≡ 15 + length (field_of card.now.text) }
{
    let text = card.text.as_slice();
    Fields {
        comment: is_comment(text),
        bad: is_bad(text),
        symbol: symbol_columns(text),
        operation: padded_operation(text),
        flag: flag(text),
        end: 15 + field(text).len() as u8,
    }
}
