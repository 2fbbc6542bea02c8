//! What is drawn of each entry, over the places of the picture.
ghost use Rattle.std.specs.Prelude.{ℕ, List};
ghost use Rattle.ctss_types.specs.declared.history.Entry.{Entry as TheEntry};
ghost use Rattle.picture_model.specs.Drawing.{drawn};
ghost use Rattle.text_writer.specs.Writing.{Adds};

use ctss_io::Sink;
use ctss_types::Entry;
use schedule_figures::chart::cut_of;
use text_writer::TextWriter;

/// What is drawn of each entry.
pub(crate) trait Layer {
    /// The text of an entry, before which so many ticks are cut out.
    ghost text: { Self → ℕ → TheEntry → List ℕ };

    /// Adds it.
    fn add<K: Sink>(&self, out: &mut TextWriter<'_, K>, cut: u128, entry: &Entry)
        ensures { Adds K.Sink (text self.now cut entry.now) out.old out.new };
}

/// Adds what is drawn of all entries.
pub(crate) fn add_layer<K: Sink, L: Layer>(
    out: &mut TextWriter<'_, K>,
    layer: &L,
    entries: &[Entry],
)
    ensures { Adds K.Sink (drawn (L.text layer.now) 0 entries.now) out.old out.new }
{
    let mut cut: u128 = 0;
    for entry in entries {
        layer.add(out, cut, entry);
        cut += u128::from(cut_of(entry));
    }
}
