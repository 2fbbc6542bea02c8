//! Numbers as they stand in a line, written from the last one on back.
ghost use Rattle.std.specs.Prelude.{◌≡◌, ◌≤◌, ◌+◌, ◌*◌, ◌++◌, length, drop};
ghost use Rattle.std.specs.List.{flat_map};
ghost use Rattle.text_model.specs.Parts.{number};

use itoa::write_digits;

/// Writes a number behind a blank so that it ends at `end`, and says where the blank stands.
#[inline(always)]
fn put_number(n: u64, bytes: &mut [u8], end: usize) -> usize
    requires room { 21 ≤ end }
    requires within { end ≤ length bytes.old }
    ensures short { end ≤ result + 21 }
    ensures written { drop result bytes.new ≡ number n ++ drop end bytes.old }
    ensures size { length bytes.new ≡ length bytes.old }
{
    let at = write_digits(n, bytes, end) - 1;
    bytes[at] = b' ';
    at
}

/// Writes numbers, each behind a blank, so that they end at `end`, and says where they begin.
#[inline(always)]
pub(crate) fn put_numbers(numbers: &[u64], bytes: &mut [u8], end: usize) -> usize
    requires room { 21 * length numbers.now ≤ end }
    requires within { end ≤ length bytes.old }
    ensures written { drop result bytes.new ≡ flat_map number numbers.now ++ drop end bytes.old }
    ensures before { result ≤ length bytes.new }
{
    let mut at = end;
    let mut left = numbers.len();
    'numbers: while left > 0 {
        left -= 1;
        at = put_number(numbers[left], bytes, at);
    }
    at
}
