//! Means in columns.
ghost use Rattle.std.specs.Prelude.{◌<◌, ◌*◌, ◌^◌};
ghost use Rattle.text_model.specs.Parts.{in_places};
ghost use Rattle.picture_model.specs.Columns.{mean, tenths};
ghost use Rattle.text_writer.specs.Writing.{Adds};

use ctss_io::Sink;
use itoa::Buffer;
use text_writer::TextWriter;
use text_writer::columns::{add_blanks, add_in_places};

/// The most places that a column has.
const MOST_PLACES: usize = 10;

/// Adds a number of tenths right in 10 places.
fn add_tenths<K: Sink>(out: &mut TextWriter<'_, K>, n: u128)
    ensures { Adds K.Sink (in_places 10 (tenths n)) out.old out.new }
{
    let mut front = Buffer::new();
    let mut behind = Buffer::new();
    let whole = front.format(n / 10).as_bytes();
    let tenth = behind.format(n % 10).as_bytes();
    add_blanks(
        out,
        MOST_PLACES.saturating_sub(whole.len() + 1 + tenth.len()),
    );
    out.add(whole);
    out.add(b".");
    out.add(tenth);
}

/// Adds the mean of so many numbers with this sum right in 10 places.
pub(crate) fn add_mean<K: Sink>(out: &mut TextWriter<'_, K>, count: u128, sum: u128)
    requires { sum * 10 < 2 ^ 128 }
    ensures { Adds K.Sink (in_places 10 (mean count sum)) out.old out.new }
{
    if count == 0 {
        add_in_places(out, MOST_PLACES, b"-");
    } else {
        add_tenths(out, sum * 10 / count);
    }
}
