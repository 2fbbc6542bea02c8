ghost use Rattle.std.specs.Prelude.{◌≡◌, ◌≤◌, ◌^◌, length, min, true};
ghost use Rattle.std.specs.List.{list_all};
ghost use Rattle.std.specs.Str.Parse.{digits_value};
ghost use Rattle.fap_model.specs.Cards.{is_digit, is_letter, is_symbol_character, is_symbol};
ghost use Rattle.fap_model.specs.Terms.{is_octal};

/// What greater numbers count as: one more than the greatest that a word has.
pub const LIMIT: u64 = 1 << 35;

fn is_digit(byte: u8) -> bool
    ensures { result ≡ is_digit byte }
{
    b'0' <= byte && byte <= b'9'
}

/// Whether all are decimal digits.
pub fn are_digits(text: &[u8]) -> bool
    ensures { result ≡ list_all is_digit text.now }
{
    text.iter().all(|b| is_digit(*b))
}

/// Whether all are octal digits.
pub fn are_octal(text: &[u8]) -> bool
    ensures { result ≡ list_all is_octal text.now }
{
    text.iter().all(|b| b'0' <= *b && *b <= b'7')
}

fn is_letter(byte: u8) -> bool
    ensures { result ≡ is_letter byte }
{
    b'A' <= byte && byte <= b'Z'
}

/// Whether a symbol may have the byte.
fn is_symbol_character(byte: u8) -> bool
    ensures { result ≡ is_symbol_character byte }
{
    is_letter(byte) || is_digit(byte) || byte == b'.'
}

fn are_symbol_characters(text: &[u8]) -> bool
    ensures { result ≡ list_all is_symbol_character text.now }
{
    text.iter().all(|b| is_symbol_character(*b))
}

/// Whether the text is a symbol.
pub fn is_symbol(text: &[u8]) -> bool
    ensures value { result ≡ is_symbol text.now }
    ensures most { result ≡ true → length text.now ≤ 6 }
{
    1 <= text.len() && text.len() <= 6 && are_symbol_characters(text) && !are_digits(text)
}

/// The number that decimal digits spell, or `LIMIT` where it is more.
pub fn decimal_value(digits: &[u8]) -> u64
    requires { list_all is_digit digits.now ≡ true }
    ensures { result ≡ min (digits_value 10 digits.now) (2 ^ 35) }
{
    let mut n = 0;
    'digits: for b in digits {
        n = (10 * n + u64::from(*b - b'0')).min(LIMIT);
    }
    n
}

/// The number that at most 12 octal digits spell.
pub fn octal_value(digits: &[u8]) -> u64
    requires digits { list_all is_octal digits.now ≡ true }
    requires length { length digits.now ≤ 12 }
    ensures { result ≡ digits_value 8 digits.now }
{
    let mut n = 0;
    'digits: for b in digits {
        n = 8 * n + u64::from(*b - b'0');
    }
    n
}
