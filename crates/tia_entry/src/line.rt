ghost use Rattle.std.specs.Prelude.{◌≡◌, ◌≤◌, ◌+◌, ◌*◌, ◌^◌, ◌++◌, length};
ghost use Rattle.std.specs.List.{flat_map};
ghost use Rattle.bcd48.specs.Words.{characters_of};
ghost use Rattle.program_model.specs.Lines.{line_of_words, words_of_line, words_at, with_words};

use arrayvec::ArrayVec;
use bcd48::text6;
use cpu_regs::MemoryPort;
use ctss_types::{LineText, MOST_CHARACTERS, name_word};

/// Adds what so many words from an address on print as.
#[tactic(auto, using(crate::proofs::Printing::prints))]
fn print_words<M: MemoryPort>(core: &M, at: u16, count: u16, text: &mut ArrayVec<u8, 84>)
    requires within { at + count ≤ length (M.words core.now) }
    requires small { at + count ≤ 2 ^ 15 }
    requires room { length text.old.items + 6 * count ≤ 84 }
    ensures { text.new.items ≡ text.old.items ++ flat_map characters_of (words_at (M.words core.now) at count) }
{
    if count == 0 {
        return;
    }
    let Ok(word) = core.load(at) else {
        unreachable!()
    };
    let _ = text.try_extend_from_slice(&text6(word.bits()));
    print_words(core, at + 1, count - 1, text);
}

/// The line that so many words from an address on are, without trailing blanks.
#[tactic(auto, using(crate::proofs::Printing::printed))]
pub fn line_in<M: MemoryPort>(core: &M, at: u16, count: u16) -> LineText
    requires count { count ≤ 14 }
    requires within { at + count ≤ length (M.words core.now) }
    ensures { result ≡ line_of_words (words_at (M.words core.now) at count) }
{
    // Then it is known of the core how many words it has at most.
    let _blocks = core.size();
    let mut text = ArrayVec::new();
    print_words(core, at, count, &mut text);
    match LineText::from_bytes(&text) {
        Ok(line) => line,
        Err(_) => unreachable!(),
    }
}

/// Stores a line as so many words from an address on, with blanks behind it; a longer line is cut.
pub fn store_line<M: MemoryPort>(core: &mut M, at: u16, count: u16, line: &[u8])
    requires within { at + count ≤ length (M.words core.old) }
    requires small { at + count ≤ 2 ^ 15 }
    ensures words { M.words core.new ≡ with_words (M.words core.old) at (words_of_line count line.now) }
    ensures keeps { M.Keeps core.old core.new }
{
    if count == 0 {
        return;
    }
    let (first, rest) = line.split_at(line.len().min(6));
    let _ = core.store(at, name_word(first));
    store_line(core, at + 1, count - 1, rest);
}
