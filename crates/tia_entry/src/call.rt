ghost use Rattle.std.specs.Prelude.{◌≡◌, ◌≤◌, ◌<◌, ◌^◌, List, ℕ, true, Ok, length, IfOk, IfSome};
ghost use Rattle.program_model.specs.Calls.{call_of, call_among, simple_entries, line_call, is_line_count, answered};
ghost use Rattle.tia_entry.specs.Buffers.{HasBuffer, call_with};

use crate::argument::{argument, behind_call, is_within};
use crate::file_call::call_of_file;
use cpu_regs::{MemoryPort, Regs};
use program_model::{Call, EntryFault};
use word36::{Acc, Word};

// The names of the entries as words, so that a call is told by a comparison of numbers.

/// RDFLX.
const READ_LINE: u64 = 0o512426436760;

/// WRFLX.
const WRITE_LINE: u64 = 0o665126436760;

/// SETMEM.
const SET_MEMORY: u64 = 0o622563442544;

/// GETTM.
const GET_TIME: u64 = 0o272563634460;

/// GETMEM.
const GET_MEMORY: u64 = 0o272563442544;

/// DEAD.
const DEAD: u64 = 0o242521246060;

/// DORMNT.
const DORMANT: u64 = 0o244651444563;

/// The two entries that have a line's buffer.
#[derive(Clone, Copy, Debug, PartialEq, Eq)]
enum LineEntry {
    Read,
    Write,
}

/// The call of an entry with a buffer.
fn call_with(entry: LineEntry, at: u16, count: u16) -> Call
    ensures { result ≡ call_with entry at count }
{
    match entry {
        LineEntry::Read => Call::ReadLine { at, count },
        LineEntry::Write => Call::WriteLine { at, count },
    }
}

/// The call with the buffer that the first argument names; where no line has so many words, the buffer isn't looked at.
fn read_line_call<M: MemoryPort>(
    regs: &Regs,
    core: &M,
    entry: LineEntry,
) -> Result<Call, EntryFault>
    ensures value { result ≡ line_call regs.now (M.words core.now) (call_with entry) }
    ensures within { IfOk result (HasBuffer (length (M.words core.now))) }
{
    let buffer = argument(regs, core, 1)?;
    let at = buffer.address();
    let count = buffer.decrement();
    if is_line_count(count) && !is_within(core, at, count) {
        return Err(EntryFault::Outside(at));
    }
    Ok(call_with(entry, at, count))
}

/// Whether a line may have so many words: 1 to 14.
pub fn is_line_count(count: u16) -> bool
    ensures { result ≡ is_line_count count }
{
    1 <= count && count <= 14
}

/// Whether the entry of a name is GETTM, of any program.
#[inline]
#[tactic(auto, unfolding(ctss_types::specs::Words::name_of))]
pub fn is_get_time(name: Word) -> bool
    ensures { result ≡ true → (r : Regs) (core : List ℕ) → call_of r core name ≡ Ok Call.GetTime }
{
    name.bits() == GET_TIME
}

/// Whether the entry of a name is GETMEM, of any program.
#[inline]
#[tactic(auto, unfolding(ctss_types::specs::Words::name_of))]
pub fn is_get_memory(name: Word) -> bool
    ensures { result ≡ true → (r : Regs) (core : List ℕ) → call_of r core name ≡ Ok Call.GetMemory }
{
    name.bits() == GET_MEMORY
}

/// What a program's call asks for, by the name of the entry. A fault changes nothing.
#[tactic(auto, unfolding(ctss_types::specs::Words::name_of))]
pub fn read_call<M: MemoryPort>(regs: &Regs, core: &M, name: Word) -> Result<Call, EntryFault>
    ensures value { result ≡ call_of regs.now (M.words core.now) name }
    ensures within { IfOk result (HasBuffer (length (M.words core.now))) }
{
    if name.bits() == READ_LINE {
        return read_line_call(regs, core, LineEntry::Read);
    }
    if name.bits() == WRITE_LINE {
        return read_line_call(regs, core, LineEntry::Write);
    }
    if name.bits() == SET_MEMORY {
        let size = argument(regs, core, 1)?;
        return Ok(Call::SetMemory {
            blocks: size.address(),
        });
    }
    simple_call(regs, core, name)
}

/// The calls without arguments, and those that ask for something of a file.
#[tactic(auto, unfolding(ctss_types::specs::Words::name_of))]
fn simple_call<M: MemoryPort>(regs: &Regs, core: &M, name: Word) -> Result<Call, EntryFault>
    ensures value { result ≡ call_among simple_entries regs.now (M.words core.now) name }
    ensures within { IfOk result (HasBuffer (length (M.words core.now))) }
{
    if name.bits() == GET_TIME {
        Ok(Call::GetTime)
    } else if name.bits() == GET_MEMORY {
        Ok(Call::GetMemory)
    } else if name.bits() == DEAD {
        Ok(Call::Dead)
    } else if name.bits() == DORMANT {
        Ok(Call::Dormant)
    } else {
        call_of_file(regs, core, name)
    }
}

/// Answers a call: the reply, a value where there is one, and on behind so many arguments.
pub fn answer(regs: &mut Regs, arguments: u8, reply: u8, value: Option<u64>)
    requires arguments { arguments ≤ 3 }
    requires reply { reply ≤ 7 }
    requires value { IfSome value (λ v. v < 2 ^ 35) }
    ensures value { regs.new ≡ answered regs.old arguments reply value }
    ensures ic { regs.new.ic < 2 ^ 15 }
{
    regs.ac = Acc::new(false, u64::from(reply));
    if let Some(value) = value {
        regs.mq = Word::signed(false, value);
    }
    regs.ic = behind_call(regs, u16::from(arguments) + 1);
}
