//! The forms of a picture.
ghost use Rattle.std.specs.Prelude.{◌≡◌};
ghost use Rattle.run_picture.specs.Asked.{form_named, text_in};

use crate::text::{FigureLines, Spans, show_chart, show_drawing};
use ctss_io::Sink;
use ctss_types::Script;
use script_show::{Outcome, RunShow, run_script};
use std::alloc::Global;

/// How a run is shown.
#[derive(Clone, Copy, Debug, PartialEq, Eq)]
pub enum Form {
    /// Drawn, as SVG.
    Svg,
    /// In characters, for a terminal.
    Text,
    /// Its figures.
    Figures,
    /// What its entries cover, as comma-separated values.
    Csv,
}

/// The form that a word names.
pub(crate) fn form_named(word: &str) -> Option<Form>
    ensures { result ≡ form_named word.now }
{
    match word {
        "svg" => Some(Form::Svg),
        "text" => Some(Form::Text),
        "figures" => Some(Form::Figures),
        "csv" => Some(Form::Csv),
        _ => None,
    }
}

impl RunShow for Form {
    ghost use Rattle.run_picture.specs.Asked.{text_in};

    ghost bytes = { λ form. text_in form };

    fn show<K: Sink>(&self, alloc: Global, script: &Script, sink: &mut K) -> Outcome {
        match self {
            Form::Svg => show_drawing(alloc, script, sink),
            Form::Text => show_chart(alloc, script, sink),
            Form::Figures => run_script(alloc, &FigureLines, script, sink),
            Form::Csv => run_script(alloc, &Spans, script, sink),
        }
    }
}
