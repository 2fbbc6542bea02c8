ghost use Rattle.std.specs.Prelude.{◌≡◌, ◌≤◌, ◌+◌, length, true};
ghost use Rattle.std.specs.List.{list_all};
ghost use Rattle.bcd48.specs.Characters.{is_character};
ghost use Rattle.text_model.specs.Made.{numbered};

use ctss_types::LineText;
use itoa::Buffer;

/// A text and the number of a user.
#[tactic(auto, using(crate::proofs::Decimals::decimal_characters, crate::proofs::Decimals::decimal_short, crate::proofs::Decimals::numbered_short))]
pub fn numbered(text: &[u8], user: u8) -> LineText
    requires short { length text.now ≤ 80 }
    requires characters { list_all is_character text.now ≡ true }
    requires user { user ≤ 30 }
    ensures value { result ≡ numbered text.now user }
    ensures few { length result ≤ length text.now + 2 }
{
    let mut buffer = Buffer::new();
    LineText::joined(text, buffer.format(user).as_bytes())
}
