//! The canonical text of the next session's base, written without making that script.
ghost use Rattle.std.specs.List.{flat_map};
ghost use Rattle.text_model.specs.Canonical.{file_cards};
ghost use Rattle.text_writer.specs.Writing.{Adds};
ghost use Rattle.ctss_tomorrow.specs.Tomorrow.{files_kept};
ghost use Rattle.ctss_tomorrow.specs.Files.{kept_text};
ghost use Rattle.ctss_tomorrow.specs.Next.{next_text};

use crate::base::kept::is_kept;
use ctss_io::Sink;
use ctss_types::{FileBody, FileList, Record, Script};
use script_read::{add_end, add_owned_file, add_params, add_users};
use script_show::{Outcome, RunShow, RunText, run_script};
use std::alloc::Global;
use text_writer::TextWriter;

/// Adds a file, if it is kept.
fn add_if_kept<K: Sink>(out: &mut TextWriter<'_, K>, owner: u64, file: &FileBody)
    ensures { Adds K.Sink (kept_text owner file.now) out.old out.new }
{
    if is_kept(file) {
        add_owned_file(out, owner, file);
    }
}

/// Adds the files of one owner that are kept.
fn add_kept<K: Sink>(out: &mut TextWriter<'_, K>, owner: u64, files: &[FileBody])
    ensures { Adds K.Sink (flat_map (kept_text owner) files.now) out.old out.new }
{
    for file in files {
        add_if_kept(out, owner, file);
    }
}

/// Adds the files of all owners that are kept.
fn add_all_kept<K: Sink>(out: &mut TextWriter<'_, K>, lists: &[FileList])
    ensures { Adds K.Sink (flat_map file_cards (files_kept 1 lists.now)) out.old out.new }
{
    for (index, files) in lists.iter().enumerate() {
        add_kept(out, index as u64 + 1, files.as_slice());
    }
}

/// Adds the whole text.
fn add_next<K: Sink>(out: &mut TextWriter<'_, K>, script: &Script, run: &Record)
    ensures { Adds K.Sink (next_text script.now run.now) out.old out.new }
{
    add_params(out, script.params);
    add_users(out, script.accounts.as_slice());
    add_all_kept(out, run.files.as_slice());
    add_end(out, 0);
}

/// The canonical text of the next session's base.
#[derive(Clone, Copy)]
pub struct NextBase;

impl RunText for NextBase {
    ghost use Rattle.ctss_tomorrow.specs.Next.{next_text};

    ghost bytes = { λ _. next_text };

    fn add_to<K: Sink>(&self, script: &Script, run: &Record, out: &mut TextWriter<'_, K>) {
        add_next(out, script, run);
    }
}

impl RunShow for NextBase {
    ghost use Rattle.ctss_tomorrow.specs.Next.{next_text};

    ghost bytes = { λ _. next_text };

    fn show<K: Sink>(&self, alloc: Global, script: &Script, sink: &mut K) -> Outcome {
        run_script(alloc, self, script, sink)
    }
}
