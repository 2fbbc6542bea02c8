//! What went wrong, in words: the line that stands beside a status that is not 0.
ghost use Rattle.std.specs.Prelude.{◌≡◌};
ghost use Rattle.std.specs.Fmt.{decimal};
ghost use Rattle.command_line.specs.Explained.{cause_text, explained, refusal_line, status_text};
ghost use Rattle.command_line.specs.Said.{Says};
ghost use Rattle.text_model.specs.Parts.{line};

use ctss_io::{Sink, write_all};
use itoa::Buffer;

/// Why a script is refused, and what is wanted.
fn cause_text(cause: u8) -> &'static [u8]
    ensures { result.now ≡ cause_text cause }
{
    if cause == 1 {
        b"no such card here: wanted are PARAM, USER, FILE (O, T), AT, END in this order, in capitals, no name twice"
    } else if cause == 2 {
        b"the tick is less than that of the AT card before"
    } else if cause == 3 {
        b"no account has this number, or it is not the next one; USER cards count from 1"
    } else if cause == 4 {
        b"a number out of its range, a text above 84 characters, or an account's files above its tracks"
    } else if cause == 5 {
        b"the blocks of all accounts are more than the drum's records"
    } else if cause == 6 {
        b"the tracks of all accounts and the common files are more than the disk's"
    } else if cause == 7 {
        b"no END card is the last one"
    } else if cause == 8 {
        b"more than 4194304 bytes came in"
    } else {
        b""
    }
}

/// What the words of the command line may be, what the numbers of cards' faults mean, and what failed and what that leaves.
fn status_text(status: u8) -> &'static [u8]
    ensures { result.now ≡ status_text status }
{
    if status == 1 {
        b"words refused: wanted is replay, dump, load N, asm or serve --port P --turns T, and input behind <"
    } else if status == 9 {
        b"cards at fault: 1 operation, 2 field or characters, 3 undefined symbol, 4 symbol twice, 5 too far, 6 no END"
    } else if status == 3 {
        b"reading the input failed: nothing was run or written"
    } else if status == 4 {
        b"writing the output failed: what was written is a beginning of it"
    } else if status == 5 {
        b"the drum failed: nothing was written"
    } else if status == 6 {
        b"the disk failed: nothing was written"
    } else if status == 7 {
        b"listening failed: the port is taken or not allowed, or the listener broke; nothing was written"
    } else if status == 8 {
        b"out of memory: nothing was written"
    } else {
        b""
    }
}

/// Says a text. Where the sink fails, that is the end of it.
#[tactic(auto, using(crate::proofs::Saying::says))]
fn say<K: Sink>(sink: &mut K, text: &[u8])
    ensures { Says text.now
        (K.held sink.old) (K.held sink.new) (K.faults sink.old) (K.faults sink.new) }
{
    let _ = write_all(sink, text);
}

/// Says a number.
fn say_number<K: Sink>(sink: &mut K, n: u32)
    ensures { Says ((decimal n)) (K.held sink.old) (K.held sink.new) (K.faults sink.old) (K.faults sink.new) }
{
    let mut digits = Buffer::new();
    say(sink, digits.format(n).as_bytes());
}

/// The line of a script's refusal.
fn say_refusal<K: Sink>(sink: &mut K, card: u32, cause: u8)
    ensures { Says (refusal_line card cause)
        (K.held sink.old) (K.held sink.new) (K.faults sink.old) (K.faults sink.new) }
{
    say(sink, b"script refused at card ");
    say_number(sink, card);
    say(sink, b": ");
    say(sink, cause_text(cause));
    say(sink, b"\n");
}

/// A line, said.
pub fn say_line<K: Sink>(sink: &mut K, text: &[u8])
    ensures { Says (line text.now) (K.held sink.old) (K.held sink.new) (K.faults sink.old) (K.faults sink.new) }
{
    say(sink, text);
    say(sink, b"\n");
}

/// The line beside a status, none beside 0. Card and cause are those of a script's refusal.
pub fn explain<K: Sink>(sink: &mut K, status: u8, card: u32, cause: u8)
    ensures { Says (explained status card cause)
        (K.held sink.old) (K.held sink.new) (K.faults sink.old) (K.faults sink.new) }
{
    if status == 0 {
        say(sink, b"");
    } else if status == 2 {
        say_refusal(sink, card, cause);
    } else {
        say_line(sink, status_text(status));
    }
}
