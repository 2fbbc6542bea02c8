//! Instructions in words.
ghost use Rattle.std.specs.Prelude.{◌≡◌, length};
ghost use Rattle.program_trace.specs.Instructions.{address_by, address_field, decoded_text, decrement_field, field_column, field_text, flag_mark, has_address, has_tag, instruction_text, is_prefixed, split_for, symbol_with, tag_field, word_column};
ghost use Rattle.text_writer.specs.Writing.{Adds};

use ctss_io::Sink;
use ctss_types::name_text;
use fap_listing::word::{Split, add_gap, add_word, class_split, gap};
use fap_model::SymbolValue;
use opcode_table::{Class, Instr, class, decode, name};
use text_writer::TextWriter;
use text_writer::cards::add_digits;
use word36::Word;

/// The places of an instruction's fields.
const FIELD_PLACES: usize = 14;

/// The first symbol with a value.
pub(crate) fn symbol_with(symbols: &[SymbolValue], value: u16) -> Option<SymbolValue>
    ensures { result ≡ symbol_with value symbols.now }
{
    symbols.iter().find(|s| s.value == value).copied()
}

/// Adds an address, by the symbol that has it as its value.
fn add_address<K: Sink>(out: &mut TextWriter<'_, K>, symbol: Option<SymbolValue>, address: u16)
    ensures { Adds K.Sink (address_by symbol address) out.old out.new }
{
    match symbol {
        Some(symbol) => out.add(name_text(symbol.name).as_slice()),
        None => add_digits(out, 5, u64::from(address)),
    }
}

/// How many places an address takes.
#[tactic(auto, using(crate::proofs::Lengths::digits_length))]
fn address_len(symbol: Option<SymbolValue>, address: u16) -> usize
    ensures { result ≡ length (address_by symbol address) }
{
    match symbol {
        Some(symbol) => usize::from(name_text(symbol.name).len()),
        None => 5,
    }
}

fn is_prefixed(class: Class) -> bool
    ensures { result ≡ is_prefixed class }
{
    matches!(class, Class::Prefixed)
}

/// Whether an operation has an address: one of code 0760 has it in its name.
fn has_address(class: Class) -> bool
    ensures { result ≡ has_address class }
{
    !matches!(class, Class::Group)
}

/// Whether the tag is told.
fn has_tag(class: Class, tag: u8) -> bool
    ensures { result ≡ has_tag class tag }
{
    is_prefixed(class) || tag != 0
}

/// Adds the address, if the operation has one.
#[tactic(auto, using(text_writer::proofs::Added::adds_none))]
fn add_address_field<K: Sink>(out: &mut TextWriter<'_, K>, symbols: &[SymbolValue], i: &Instr)
    ensures { Adds K.Sink (address_field symbols.now i.now) out.old out.new }
{
    if has_address(class(i.op)) {
        add_address(out, symbol_with(symbols, i.address), i.address);
    }
}

/// Adds the tag behind a comma, if it is told.
#[tactic(auto, using(text_writer::proofs::Added::adds_none))]
fn add_tag_field<K: Sink>(out: &mut TextWriter<'_, K>, i: &Instr)
    ensures { Adds K.Sink (tag_field i.now) out.old out.new }
{
    if has_tag(class(i.op), i.tag) {
        out.add(b",");
        add_digits(out, 1, u64::from(i.tag));
    }
}

/// Adds the decrement behind a comma, if the operation has one.
#[tactic(auto, using(text_writer::proofs::Added::adds_none))]
fn add_decrement_field<K: Sink>(out: &mut TextWriter<'_, K>, i: &Instr)
    ensures { Adds K.Sink (decrement_field i.now) out.old out.new }
{
    if is_prefixed(class(i.op)) {
        out.add(b",");
        add_digits(out, 5, u64::from(i.decrement));
    }
}

/// How many places the address takes.
fn address_field_len(symbols: &[SymbolValue], i: &Instr) -> usize
    ensures { result ≡ length (address_field symbols.now i.now) }
{
    if has_address(class(i.op)) {
        address_len(symbol_with(symbols, i.address), i.address)
    } else {
        0
    }
}

/// How many places the tag takes, with its comma.
#[tactic(auto, using(crate::proofs::Lengths::digits_length))]
fn tag_field_len(i: &Instr) -> usize
    ensures { result ≡ length (tag_field i.now) }
{
    if has_tag(class(i.op), i.tag) { 2 } else { 0 }
}

/// How many places the decrement takes, with its comma.
#[tactic(auto, using(crate::proofs::Lengths::digits_length))]
fn decrement_field_len(i: &Instr) -> usize
    ensures { result ≡ length (decrement_field i.now) }
{
    if is_prefixed(class(i.op)) { 6 } else { 0 }
}

/// Adds the fields in their places.
fn add_fields<K: Sink>(out: &mut TextWriter<'_, K>, symbols: &[SymbolValue], i: &Instr)
    ensures { Adds K.Sink (field_column symbols.now i.now) out.old out.new }
{
    let blanks = FIELD_PLACES
        .saturating_sub(address_field_len(symbols, i))
        .saturating_sub(tag_field_len(i))
        .saturating_sub(decrement_field_len(i));
    add_address_field(out, symbols, i);
    add_tag_field(out, i);
    add_decrement_field(out, i);
    add_gap(out, blanks as u16);
}

/// What shows the flag.
fn flag_mark(flag: bool) -> &'static [u8]
    ensures { result.now ≡ flag_mark flag }
{
    if flag { b"*" } else { b" " }
}

/// Adds an instruction.
fn add_instruction<K: Sink>(out: &mut TextWriter<'_, K>, symbols: &[SymbolValue], i: &Instr)
    ensures { Adds K.Sink (instruction_text symbols.now i.now) out.old out.new }
{
    out.add(name(i.op).as_bytes());
    out.add(flag_mark(i.flag));
    add_gap(out, 2);
    add_fields(out, symbols, i);
}

/// How a word is split that was taken for an instruction.
fn split_for(instr: &Option<Instr>) -> Split
    ensures { result ≡ split_for instr.now }
{
    match instr {
        Some(i) => class_split(class(i.op)),
        None => Split::Data,
    }
}

/// Adds what a word says as an instruction.
fn add_decoded<K: Sink>(out: &mut TextWriter<'_, K>, symbols: &[SymbolValue], instr: &Option<Instr>)
    ensures { Adds K.Sink (decoded_text symbols.now instr.now) out.old out.new }
{
    match instr {
        Some(i) => add_instruction(out, symbols, i),
        None => add_gap(out, 20),
    }
}

/// Adds a word and what it says as an instruction.
pub(crate) fn add_word_column<K: Sink>(
    out: &mut TextWriter<'_, K>,
    symbols: &[SymbolValue],
    word: Option<Word>,
)
    ensures { Adds K.Sink (word_column symbols.now word) out.old out.new }
{
    match word {
        Some(word) => {
            let instr = decode(word);
            let split = split_for(&instr);
            add_word(out, split, word);
            add_gap(out, gap(split));
            add_gap(out, 2);
            add_decoded(out, symbols, &instr);
        }
        None => add_gap(out, 37),
    }
}
