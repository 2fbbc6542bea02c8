//! The listing of a module as a text.
ghost use Rattle.std.specs.Prelude.{◌≡◌, ◌+◌, ◌*◌, ◌-◌, ◌^◌, ◌<◌, ◌≤◌, length};
ghost use Rattle.std.specs.List.{flat_map};
ghost use Rattle.fap_assemble.specs.Steps.{texts};
ghost use Rattle.fap_listing.specs.ModuleListing.{entries_text, entry_line, extern_line, externs_text, first_module_figures, module_fault_count, module_figures, module_figures_line, module_row_faults, module_text, place_count};
ghost use Rattle.text_writer.specs.Writing.{Adds};

use crate::listing::add_end;
use crate::module_card::add_module_rows;
use crate::symbol::{add_literals, add_symbols};
use crate::word::add_gap;
use ctss_io::Sink;
use fap_read::Card;
use link_model::{ListedModule, ModuleEntry, ModuleRow};
use text_writer::TextWriter;
use text_writer::cards::add_digits;
use text_writer::columns::{add_characters, add_number};
use word36::Word;

/// Adds an entry with its place.
fn add_entry<K: Sink>(out: &mut TextWriter<'_, K>, entry: &ModuleEntry)
    ensures { Adds K.Sink (entry_line entry.now) out.old out.new }
{
    add_characters(out, entry.name);
    add_gap(out, 2);
    add_digits(out, 5, u64::from(entry.place));
    out.end_line();
}

/// Adds entries.
fn add_entry_lines<K: Sink>(out: &mut TextWriter<'_, K>, entries: &[ModuleEntry])
    ensures { Adds K.Sink (flat_map entry_line entries.now) out.old out.new }
{
    for entry in entries {
        add_entry(out, entry);
    }
}

/// Adds the table of entries, if there are any.
#[tactic(auto, using(text_writer::proofs::Added::adds_none))]
fn add_entries<K: Sink>(out: &mut TextWriter<'_, K>, entries: &[ModuleEntry])
    ensures { Adds K.Sink (entries_text entries.now) out.old out.new }
{
    if let [_, ..] = entries {
        out.end_line();
        out.line(b"ENTRY   PLACE");
        add_entry_lines(out, entries);
    }
}

/// Adds an extern.
fn add_extern<K: Sink>(out: &mut TextWriter<'_, K>, name: Word)
    ensures { Adds K.Sink (extern_line name) out.old out.new }
{
    add_characters(out, name);
    out.end_line();
}

/// Adds externs.
fn add_extern_lines<K: Sink>(out: &mut TextWriter<'_, K>, names: &[Word])
    ensures { Adds K.Sink (flat_map extern_line names.now) out.old out.new }
{
    for name in names {
        add_extern(out, *name);
    }
}

/// Adds the table of externs, if there are any.
#[tactic(auto, using(text_writer::proofs::Added::adds_none))]
fn add_externs<K: Sink>(out: &mut TextWriter<'_, K>, names: &[Word])
    ensures { Adds K.Sink (externs_text names.now) out.old out.new }
{
    if let [_, ..] = names {
        out.end_line();
        out.line(b"EXTERN");
        add_extern_lines(out, names);
    }
}

/// How many rows are at fault.
fn module_row_faults(rows: &[ModuleRow]) -> usize
    ensures value { result ≡ module_row_faults rows.now }
    ensures within { result ≤ length rows.now }
{
    rows.iter().filter(|row| row.fault != 0).count()
}

/// How many faults there are, a missing END with them.
pub(crate) fn module_fault_count(listed: &ListedModule) -> usize
    ensures { result ≡ module_fault_count listed.now }
{
    let rows = module_row_faults(listed.rows.as_slice());
    if listed.has_end { rows } else { rows + 1 }
}

/// How many places rows have.
fn place_count(rows: &[ModuleRow]) -> u128
    ensures value { result ≡ place_count rows.now }
    ensures within { result ≤ 2 ^ 65 * length rows.now }
{
    let mut places = 0;
    for row in rows {
        places += u128::from(row.reserved) + row.words.len() as u128;
    }
    places
}

/// How many places there are, those of literals with them.
fn all_places(listed: &ListedModule) -> u128
    ensures { result ≡ place_count listed.now.rows + length listed.now.literals }
{
    place_count(listed.rows.as_slice()) + listed.literals.len() as u128
}

/// Adds what is told of a module without a fault.
fn add_module_figures<K: Sink>(out: &mut TextWriter<'_, K>, listed: &ListedModule)
    ensures { Adds K.Sink (module_figures listed.now) out.old out.new }
{
    out.add(b"START ");
    add_digits(out, 5, u64::from(listed.start));
    out.add(b"   PLACES ");
    add_number(out, all_places(listed));
    out.add(b"   ENTRIES ");
    add_number(out, listed.entries.len());
    out.add(b"   EXTERNS ");
    add_number(out, listed.externs.len());
    out.add(b"   LITERALS ");
    add_number(out, listed.literals.len());
    out.add(b"   ");
}

/// Adds the same, if there is no fault.
#[tactic(auto, using(text_writer::proofs::Added::adds_none))]
fn add_first_module_figures<K: Sink>(
    out: &mut TextWriter<'_, K>,
    listed: &ListedModule,
    faults: usize,
)
    requires { faults ≡ module_fault_count listed.now }
    ensures { Adds K.Sink (first_module_figures listed.now) out.old out.new }
{
    if faults == 0 {
        add_module_figures(out, listed);
    }
}

/// Adds the figures.
fn add_module_figures_line<K: Sink>(out: &mut TextWriter<'_, K>, listed: &ListedModule)
    ensures { Adds K.Sink (module_figures_line listed.now) out.old out.new }
{
    let faults = module_fault_count(listed);
    add_first_module_figures(out, listed, faults);
    out.add(b"CARDS ");
    add_number(out, listed.rows.len());
    out.add(b"   FAULTS ");
    add_number(out, faults);
    out.end_line();
}

/// Adds the listing of a module whose cards come to this.
pub(crate) fn add_module<K: Sink>(
    out: &mut TextWriter<'_, K>,
    listed: &ListedModule,
    cards: &[Card],
)
    ensures { Adds K.Sink (module_text listed.now (texts cards.now)) out.old out.new }
{
    out.line(
        b"CARD  PLACE  WORD             CARD AS IT STANDS; M: THE MODULE'S PLACE IS ADDED, X: AN EXTERN'S",
    );
    add_module_rows(out, listed.rows.as_slice(), cards);
    add_end(out, listed.has_end, cards.len());
    add_literals(out, listed.end_place, listed.literals.as_slice());
    add_symbols(
        out,
        listed.symbols.as_slice(),
        listed.definitions.as_slice(),
        listed.uses.as_slice(),
    );
    add_entries(out, listed.entries.as_slice());
    add_externs(out, listed.externs.as_slice());
    out.end_line();
    add_module_figures_line(out, listed);
}
