//! Labels of bars.
ghost use Rattle.std.specs.Prelude.{◌≡◌, ◌≤◌, ◌+◌, ◌/◌, ◌^◌, ◌++◌};
ghost use Rattle.std.specs.Fmt.{decimal};
ghost use Rattle.picture_model.specs.Drawing.{bar_label, cause_letter, label_class, label_letter, level_label, words_at};
ghost use Rattle.text_writer.specs.Writing.{Adds};

use crate::shape::{Point, add_number_at, begin_text};
use crate::sheet::Sheet;
use ctss_io::Sink;
use ctss_types::Cause;
use text_writer::TextWriter;
use text_writer::columns::add_number;

/// The letter of why a service ended.
pub(crate) fn cause_letter(cause: Cause) -> u8
    ensures { result ≡ cause_letter cause }
{
    match cause {
        Cause::Time => b'T',
        Cause::Wait => b'W',
        Cause::Stop => b'S',
        Cause::Size => b'Z',
        Cause::Preempt => b'P',
        Cause::End => b'E',
    }
}

/// The class of a label with this number.
fn label_class(number: u8) -> &'static [u8]
    ensures { result.now ≡ label_class number }
{
    if number < 5 { b"n" } else { b"n d" }
}

/// Adds the letter, where there is room for it.
#[tactic(auto, using(text_writer::proofs::Added::adds_none))]
fn add_letter<K: Sink>(out: &mut TextWriter<'_, K>, sheet: Sheet, width: u128, letter: u8)
    ensures { Adds K.Sink (label_letter sheet.scale width letter) out.old out.new }
{
    if width >= sheet.units(16) {
        out.add(&[letter]);
    }
}

/// Adds a number and a letter in the middle of a bar.
fn add_wide<K: Sink>(
    out: &mut TextWriter<'_, K>,
    sheet: Sheet,
    middle: Point,
    width: u128,
    number: u8,
    letter: u8,
)
    ensures { Adds K.Sink (words_at (label_class number) middle.x middle.y
        (decimal number ++ label_letter sheet.scale width letter)) out.old out.new }
{
    begin_text(out, label_class(number), middle);
    add_number(out, number);
    add_letter(out, sheet, width, letter);
    out.line(b"</text>");
}

/// The middle of a bar that begins here and is so wide.
fn middle_of(at: Point, width: u128) -> Point
    requires left { at.x ≤ 2 ^ 80 }
    requires width { width ≤ 2 ^ 90 }
    ensures x { result.x ≡ at.x + width / 2 }
    ensures y { result.y ≡ at.y }
{
    Point {
        x: at.x + width / 2,
        y: at.y,
    }
}

/// Adds the label of a user's bar that begins at a point, if the bar is wide enough.
#[tactic(auto, using(text_writer::proofs::Added::adds_none))]
pub(crate) fn add_label<K: Sink>(
    out: &mut TextWriter<'_, K>,
    sheet: Sheet,
    at: Point,
    width: u128,
    number: u8,
    letter: u8,
)
    requires left { at.x ≤ 2 ^ 80 }
    requires width { width ≤ 2 ^ 90 }
    ensures { Adds K.Sink (bar_label sheet.scale at.x at.y width number letter) out.old out.new }
{
    if width >= sheet.units(8) {
        add_wide(out, sheet, middle_of(at, width), width, number, letter);
    }
}

/// Adds the label of a level's bar that begins at a point, if the bar is wide enough.
#[tactic(auto, using(text_writer::proofs::Added::adds_none))]
pub(crate) fn add_level_label<K: Sink>(
    out: &mut TextWriter<'_, K>,
    sheet: Sheet,
    at: Point,
    width: u128,
    number: u8,
)
    requires left { at.x ≤ 2 ^ 80 }
    requires width { width ≤ 2 ^ 90 }
    ensures { Adds K.Sink (level_label sheet.scale at.x at.y width number) out.old out.new }
{
    if width >= sheet.units(16) {
        add_number_at(out, b"n", middle_of(at, width), number);
    }
}
