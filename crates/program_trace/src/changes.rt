//! Registers that a step changed.
ghost use Rattle.std.specs.Prelude.{◌≡◌, ◌≤◌, ◌++◌, ◌&&◌, if◌then◌else◌, nat_eq, codes};
ghost use Rattle.program_trace.specs.Registers.{acc_change, acc_text, changes_to, index_change, index_changes, indicator_change, on_text, register_changes, same_sign, word_change};
ghost use Rattle.text_writer.specs.Writing.{Adds};

use cpu_regs::Regs;
use ctss_io::Sink;
use text_writer::TextWriter;
use text_writer::cards::add_digits;
use word36::{Acc, Word};

/// Adds the name of a register, in front of its value.
fn add_name<K: Sink>(out: &mut TextWriter<'_, K>, name: &[u8])
    ensures { Adds K.Sink (codes "  " ++ (name.now ++ codes " ")) out.old out.new }
{
    out.add(b"  ");
    out.add(name);
    out.add(b" ");
}

/// The sign of an accumulator.
fn acc_sign(acc: Acc) -> &'static [u8]
    ensures { result.now ≡ (if acc.negative then codes "-" else codes "+") }
{
    if acc.negative() { b"-" } else { b"+" }
}

/// Adds an accumulator.
fn add_acc<K: Sink>(out: &mut TextWriter<'_, K>, acc: Acc)
    ensures { Adds K.Sink (acc_text acc) out.old out.new }
{
    out.add(acc_sign(acc));
    add_digits(out, 13, acc.magnitude());
}

/// Whether a sign or an indicator is what it was.
fn is_same(before: bool, after: bool) -> bool
    ensures { result ≡ same_sign before after }
{
    before == after
}

/// Whether the accumulator is what it was.
fn is_same_acc(before: Acc, after: Acc) -> bool
    ensures { result ≡ (same_sign before.negative after.negative && nat_eq before.magnitude after.magnitude) }
{
    is_same(before.negative(), after.negative()) && before.magnitude() == after.magnitude()
}

/// Adds the accumulator, if it isn't what it was.
#[tactic(auto, using(text_writer::proofs::Added::adds_none))]
fn add_acc_change<K: Sink>(out: &mut TextWriter<'_, K>, before: Acc, after: Acc)
    ensures { Adds K.Sink (acc_change before after) out.old out.new }
{
    if !is_same_acc(before, after) {
        add_name(out, b"AC");
        add_acc(out, after);
    }
}

/// Adds a register of a word, if it isn't what it was.
#[tactic(auto, using(text_writer::proofs::Added::adds_none))]
fn add_word_change<K: Sink>(out: &mut TextWriter<'_, K>, name: &[u8], before: Word, after: Word)
    ensures { Adds K.Sink (word_change name.now before after) out.old out.new }
{
    if before.bits() != after.bits() {
        add_name(out, name);
        add_digits(out, 12, after.bits());
    }
}

/// Adds an index register, if it isn't what it was.
#[tactic(auto, using(text_writer::proofs::Added::adds_none))]
fn add_index_change<K: Sink>(out: &mut TextWriter<'_, K>, before: &Regs, after: &Regs, tag: u8)
    requires { tag ≤ 7 }
    ensures { Adds K.Sink (index_change before.now after.now tag) out.old out.new }
{
    if before.xr(tag) != after.xr(tag) {
        add_name(out, &[b'X', b'0' + tag]);
        add_digits(out, 5, u64::from(after.xr(tag)));
    }
}

/// Adds the index registers that aren't what they were.
fn add_index_changes<K: Sink>(out: &mut TextWriter<'_, K>, before: &Regs, after: &Regs)
    ensures { Adds K.Sink (index_changes before.now after.now) out.old out.new }
{
    add_index_change(out, before, after, 1);
    add_index_change(out, before, after, 2);
    add_index_change(out, before, after, 3);
    add_index_change(out, before, after, 4);
    add_index_change(out, before, after, 5);
    add_index_change(out, before, after, 6);
    add_index_change(out, before, after, 7);
}

/// What is shown of an indicator.
fn on_text(on: bool) -> &'static [u8]
    ensures { result.now ≡ on_text on }
{
    if on { b"ON" } else { b"OFF" }
}

/// Adds an indicator, if it isn't what it was.
#[tactic(auto, using(text_writer::proofs::Added::adds_none))]
fn add_indicator_change<K: Sink>(
    out: &mut TextWriter<'_, K>,
    name: &[u8],
    before: bool,
    after: bool,
)
    ensures { Adds K.Sink (indicator_change name.now before after) out.old out.new }
{
    if !is_same(before, after) {
        add_name(out, name);
        out.add(on_text(after));
    }
}

/// Adds the registers that aren't what they were.
fn add_register_changes<K: Sink>(out: &mut TextWriter<'_, K>, before: &Regs, after: &Regs)
    ensures { Adds K.Sink (register_changes before.now after.now) out.old out.new }
{
    add_acc_change(out, before.ac, after.ac);
    add_word_change(out, b"MQ", before.mq, after.mq);
    add_word_change(out, b"SI", before.si, after.si);
    add_index_changes(out, before, after);
    add_indicator_change(out, b"OV", before.overflow, after.overflow);
    add_indicator_change(out, b"DC", before.divide_check, after.divide_check);
}

/// Adds what a step changed of the registers, where it leaves a program.
#[tactic(auto, using(text_writer::proofs::Added::adds_none))]
pub(crate) fn add_changes<K: Sink>(out: &mut TextWriter<'_, K>, before: &Regs, after: &Option<Regs>)
    ensures { Adds K.Sink (changes_to before.now after.now) out.old out.new }
{
    if let Some(after) = after {
        add_register_changes(out, before, after);
    }
}
