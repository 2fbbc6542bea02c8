//! Numbers over the rows.
ghost use Rattle.picture_model.specs.Chart.{left_number};
ghost use Rattle.text_writer.specs.Writing.{Adds};

use ctss_io::Sink;
use itoa::Buffer;
use text_writer::TextWriter;
use text_writer::columns::add_blanks;

/// Adds a number left in 10 places; a longer one stands whole.
pub fn add_left<K: Sink>(out: &mut TextWriter<'_, K>, n: u128)
    ensures { Adds K.Sink (left_number n) out.old out.new }
{
    let mut buffer = Buffer::new();
    let digits = buffer.format(n).as_bytes();
    out.add(digits);
    add_blanks(out, 10_usize.saturating_sub(digits.len()));
}
