//! Bytes come in, and a text of them goes out.
ghost use Rattle.std.specs.Prelude.{◌≤◌, length};
ghost use Rattle.ctss_modes.specs.Devices.{output_seen};
ghost use Rattle.script_show.specs.Input.{IsOfInput, ShowsBytes, StatusOfBytes, TextOfBytes};
ghost use Rattle.script_show.specs.Seen.{streams};

use ctss_io::{Sink, Source, read_bytes};
use ctss_modes::{Outcome, end_unread};
use std::alloc::Global;

/// How bytes are shown.
pub trait InputShow {
    /// The text of some bytes.
    ghost text: { Self → TextOfBytes };

    /// The status where it is written: 0, or 9 where the bytes are at fault.
    ghost status: { Self → StatusOfBytes };

    /// Writes the text of bytes.
    fn show<K: Sink>(&self, alloc: Global, bytes: &[u8], sink: &mut K) -> Outcome
        requires { length bytes.now ≤ 4194304 }
        ensures { ShowsBytes (text self.now) (status self.now) bytes.now
            (output_seen K.Sink sink.old) (output_seen K.Sink sink.new) result };
}

/// All bytes that come in are read, and their text is written. Too many are refused as `replay` of the supervisor refuses them.
pub fn show_input<T: InputShow, S: Source, K: Sink>(
    alloc: Global,
    text: &T,
    input: &mut S,
    output: &mut K,
) -> Outcome
    ensures { IsOfInput (T.text text.now) (T.status text.now)
        (streams S.Source K.Sink input.old output.old) (streams S.Source K.Sink input.new output.new) result }
{
    match read_bytes(alloc, input) {
        Ok(bytes) => text.show(alloc, &bytes, output),
        Err(end) => end_unread(alloc, output, end),
    }
}
