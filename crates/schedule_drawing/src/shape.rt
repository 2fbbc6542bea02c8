//! Rectangles, texts and signs, as they stand in the text of a picture.
ghost use Rattle.picture_model.specs.Drawing.{area, attribute, bar, form, plain_box, text_begun, tip, titled, words_at};
ghost use Rattle.text_writer.specs.Writing.{Adds};

use crate::sheet::Sheet;
use ctss_io::Sink;
use ctss_types::Entry;
use itoa::Integer;
use text_writer::TextWriter;
use text_writer::columns::add_number;
use text_writer::report::add_entry;

/// Where a rectangle lies: its upper left corner, and how wide and how high it is.
#[derive(Clone, Copy)]
pub struct Area {
    pub x: u128,
    pub y: u128,
    pub width: u128,
    pub height: u128,
}

/// A point of a picture.
#[derive(Clone, Copy)]
pub struct Point {
    pub x: u128,
    pub y: u128,
}

/// Adds an attribute, whose name comes with all that stands before its number.
pub(crate) fn add_attribute<K: Sink>(out: &mut TextWriter<'_, K>, name: &[u8], n: u128)
    ensures { Adds K.Sink (attribute name.now n) out.old out.new }
{
    out.add(name);
    add_number(out, n);
    out.add(b"'");
}

/// Adds where a rectangle lies.
fn add_area<K: Sink>(out: &mut TextWriter<'_, K>, at: Area)
    ensures { Adds K.Sink (area at.x at.y at.width at.height) out.old out.new }
{
    add_attribute(out, b" x='", at.x);
    add_attribute(out, b" y='", at.y);
    add_attribute(out, b" width='", at.width);
    add_attribute(out, b" height='", at.height);
}

/// Adds the end of what has the line of an entry as its title.
fn add_titled<K: Sink>(out: &mut TextWriter<'_, K>, what: &[u8], entry: &Entry)
    ensures { Adds K.Sink (titled what.now entry.now) out.old out.new }
{
    out.add(b"><title>");
    add_entry(out, entry);
    out.add(b"</title></");
    out.add(what);
    out.line(b">");
}

/// Adds a rectangle of a class with a number, for an entry.
pub(crate) fn add_bar<K: Sink>(
    out: &mut TextWriter<'_, K>,
    class: &[u8],
    number: u8,
    at: Area,
    entry: &Entry,
)
    ensures { Adds K.Sink (bar class.now number at.x at.y at.width at.height entry.now) out.old out.new }
{
    out.add(b"<rect class='");
    out.add(class);
    add_number(out, number);
    out.add(b"'");
    add_area(out, at);
    add_titled(out, b"rect", entry);
}

/// Adds a rectangle of a class alone.
pub(crate) fn add_box<K: Sink>(out: &mut TextWriter<'_, K>, class: &[u8], at: Area)
    ensures { Adds K.Sink (plain_box class.now at.x at.y at.width at.height) out.old out.new }
{
    out.add(b"<rect class='");
    out.add(class);
    out.add(b"'");
    add_area(out, at);
    out.line(b"/>");
}

/// Adds the begin of a text of a class, at a point.
pub(crate) fn begin_text<K: Sink>(out: &mut TextWriter<'_, K>, class: &[u8], at: Point)
    ensures { Adds K.Sink (text_begun class.now at.x at.y) out.old out.new }
{
    out.add(b"<text class='");
    out.add(class);
    out.add(b"'");
    add_attribute(out, b" x='", at.x);
    add_attribute(out, b" y='", at.y);
    out.add(b">");
}

/// Adds a text of a class, at a point.
pub(crate) fn add_words<K: Sink>(out: &mut TextWriter<'_, K>, class: &[u8], at: Point, text: &[u8])
    ensures { Adds K.Sink (words_at class.now at.x at.y text.now) out.old out.new }
{
    begin_text(out, class, at);
    out.add(text);
    out.line(b"</text>");
}

/// Adds a number as a text of a class, at a point.
pub(crate) fn add_number_at<K: Sink, I: Integer>(
    out: &mut TextWriter<'_, K>,
    class: &[u8],
    at: Point,
    n: I,
)
    ensures { Adds K.Sink (words_at class.now at.x at.y (I.text n)) out.old out.new }
{
    begin_text(out, class, at);
    add_number(out, n);
    out.line(b"</text>");
}

/// A sign: its class, and what stands between its two strokes, `-` where they go up and a blank where they go down.
#[derive(Clone, Copy)]
pub(crate) struct Sign {
    pub class: &'static [u8],
    pub side: &'static [u8],
}

/// Adds the form of a sign whose tip is at a point.
fn add_form<K: Sink>(out: &mut TextWriter<'_, K>, sheet: Sheet, at: Point, side: &[u8])
    ensures { Adds K.Sink (form sheet.scale at.x at.y side.now) out.old out.new }
{
    add_number(out, at.x);
    out.add(b" ");
    add_number(out, at.y);
    out.add(b"l-");
    add_number(out, sheet.units(3));
    out.add(side);
    add_number(out, sheet.units(6));
    out.add(b"h");
    add_number(out, sheet.units(6));
}

/// Adds a sign for an entry, with its tip at a point.
pub(crate) fn add_sign<K: Sink>(
    out: &mut TextWriter<'_, K>,
    sheet: Sheet,
    sign: Sign,
    at: Point,
    entry: &Entry,
)
    ensures { Adds K.Sink (tip sign.class.now sheet.scale at.x at.y sign.side.now entry.now) out.old out.new }
{
    out.add(b"<path class='");
    out.add(sign.class);
    out.add(b"' d='M");
    add_form(out, sheet, at, sign.side);
    out.add(b"z'");
    add_titled(out, b"path", entry);
}
