//! The texts of a run in each form.
ghost use Rattle.text_model.specs.Lawful.{IsLawful};
ghost use Rattle.picture_model.specs.FigureLines.{figures_of};
ghost use Rattle.picture_model.specs.CoreLines.{chart_with_core};
ghost use Rattle.picture_model.specs.Picture.{drawing_of};
ghost use Rattle.text_writer.specs.Writing.{Adds};
ghost use Rattle.ctss_modes.specs.Devices.{output_seen};
ghost use Rattle.script_show.specs.Shown.{ShowsRun};

use crate::core_maps::core_maps;
use ctss_io::Sink;
use ctss_types::{Record, Script};
use schedule_drawing::add_drawing;
use schedule_figures::chart::{CoreMaps, add_chart};
use schedule_figures::{add_csv, add_figures};
use script_show::{Outcome, RunText, run_script};
use std::alloc::Global;
use text_writer::TextWriter;

/// The figures, a line each.
pub(crate) struct FigureLines;

/// Adds the figures, a line each.
fn add_lines<K: Sink>(out: &mut TextWriter<'_, K>, script: &Script, run: &Record)
    ensures { Adds K.Sink (figures_of script.now run.now) out.old out.new }
{
    add_figures(out, b"", b"\n", script, run);
}

impl RunText for FigureLines {
    ghost use Rattle.picture_model.specs.FigureLines.{figures_of};

    ghost bytes = { λ _. figures_of };

    fn add_to<K: Sink>(&self, script: &Script, run: &Record, out: &mut TextWriter<'_, K>) {
        add_lines(out, script, run);
    }
}

/// What the entries of the schedule cover, as comma-separated values.
pub(crate) struct Spans;

impl RunText for Spans {
    ghost use Rattle.picture_model.specs.Csv.{csv_of};

    ghost bytes = { λ _. csv_of };

    fn add_to<K: Sink>(&self, script: &Script, run: &Record, out: &mut TextWriter<'_, K>) {
        add_csv(out, script, run);
    }
}

/// The picture in characters, with the owners of core after each load.
#[derive(Drop)]
struct Chart {
    maps: CoreMaps,
}

impl RunText for Chart {
    ghost use Rattle.std.specs.Prelude.{map};
    ghost use Rattle.picture_model.specs.Cores.{owner_in};
    ghost use Rattle.picture_model.specs.CoreLines.{chart_over};

    ghost bytes = { λ chart. chart_over (map owner_in chart.maps) };

    fn add_to<K: Sink>(&self, script: &Script, run: &Record, out: &mut TextWriter<'_, K>) {
        add_chart(out, script, run, &self.maps);
    }
}

/// The picture, drawn, with the same.
#[derive(Drop)]
struct Drawing {
    maps: CoreMaps,
}

impl RunText for Drawing {
    ghost use Rattle.std.specs.Prelude.{map};
    ghost use Rattle.picture_model.specs.Cores.{owner_in};
    ghost use Rattle.picture_model.specs.Picture.{drawing_over};

    ghost bytes = { λ drawing. drawing_over (map owner_in drawing.maps) };

    fn add_to<K: Sink>(&self, script: &Script, run: &Record, out: &mut TextWriter<'_, K>) {
        add_drawing(out, script, run, &self.maps);
    }
}

/// Runs a script, and shows its run in characters. The maps of core are made before anything is written.
pub(crate) fn show_chart<K: Sink>(alloc: Global, script: &Script, sink: &mut K) -> Outcome
    requires { IsLawful script.now }
    ensures { ShowsRun chart_with_core script.now (output_seen K.Sink sink.old) (output_seen K.Sink sink.new) result }
{
    match core_maps(alloc, script) {
        Ok(maps) => run_script(alloc, &Chart { maps }, script, sink),
        Err(_) => Outcome::bare(alloc, 8, 0, 0),
    }
}

/// Runs a script, and draws its run, likewise.
pub(crate) fn show_drawing<K: Sink>(alloc: Global, script: &Script, sink: &mut K) -> Outcome
    requires { IsLawful script.now }
    ensures { ShowsRun drawing_of script.now (output_seen K.Sink sink.old) (output_seen K.Sink sink.new) result }
{
    match core_maps(alloc, script) {
        Ok(maps) => run_script(alloc, &Drawing { maps }, script, sink),
        Err(_) => Outcome::bare(alloc, 8, 0, 0),
    }
}
