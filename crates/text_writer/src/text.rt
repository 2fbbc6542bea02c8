//! Texts as wholes.
ghost use Rattle.std.specs.Prelude.{◌≡◌, ℕ, List, OnOk};
ghost use Rattle.faults.specs.Faults.{Rose};
ghost use Rattle.ctss_io.specs.Outside.{after};
ghost use Rattle.ctss_io.specs.Whole.{GrewByProperPrefix};
ghost use Rattle.text_writer.specs.Writing.{Adds};

use crate::piece::Piece;
use crate::writer::TextWriter;
use ctss_io::Sink;
use faults::NoMemory;
use std::alloc::Global;

/// A text that is added piece by piece.
pub trait Text {
    /// Its bytes.
    ghost bytes: { Self → List ℕ };

    /// Adds it.
    fn add_to<K: Sink>(&self, out: &mut TextWriter<'_, K>)
        ensures { Adds K.Sink (bytes self.now) out.old out.new };
}

/// Why a text was not written.
#[derive(Clone, Copy, Debug, PartialEq, Eq)]
pub enum TextFault {
    /// A put failed.
    Write,
    /// Memory ran out, before the first byte was put.
    NoMemory,
}

impl From<NoMemory> for TextFault {
    ghost use Rattle.std.specs.Prelude.{◌≡◌};
    ghost use Rattle.text_writer.specs.declared.text.TextFault.TheVariants as faults;

    ghost from_gives = { λ _ e. e ≡ faults.NoMemory };

    fn from(_: NoMemory) -> Self {
        TextFault::NoMemory
    }
}

/// Writes a text. It takes the memory of one piece, before the first byte is put, and no other.
pub fn write_text<K: Sink, T: Text>(alloc: Global, sink: &mut K, text: &T) -> Result<(), TextFault>
    ensures written { OnOk result (K.held sink.new ≡ after (K.held sink.old) (T.bytes text.now)) }
    ensures part { result ≡ Err TextFault.Write → GrewByProperPrefix (K.held sink.old) (T.bytes text.now)
        (K.held sink.new) }
    ensures cause { result ≡ Err TextFault.Write → Rose (K.faults sink.old) (K.faults sink.new) }
    ensures silent { result ≡ Err TextFault.NoMemory → K.held sink.new ≡ K.held sink.old }
{
    let piece = Piece::new(alloc)?;
    let mut out = TextWriter::over(sink, piece);
    text.add_to(&mut out);
    out.flush();
    let has_failed = out.has_failed();
    let _ = out.back();
    if has_failed {
        Err(TextFault::Write)
    } else {
        Ok(())
    }
}
