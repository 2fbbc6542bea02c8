//! Where a call's arguments stand, and what they point at.
ghost use Rattle.std.specs.Prelude.{◌≡◌, ◌≤◌, ◌<◌, ◌+◌, ◌^◌, length, nat_le};
ghost use Rattle.program_model.specs.Calls.{behind_call};
ghost use Rattle.tia_entry.specs.Looks.{word_at};

use cpu_regs::{MemoryPort, Regs};
use program_model::EntryFault;
use word36::Word;

/// The n-th place after the call, from 1 on.
pub(crate) fn behind_call(regs: &Regs, n: u16) -> u16
    requires { n ≤ 4 }
    ensures place { result ≡ behind_call regs.now n }
    ensures below { result < 2 ^ 15 }
{
    let call = (0o100000 - regs.xr(4)) & 0o77777;
    (call + n) & 0o77777
}

/// The word at an address.
pub(crate) fn word_at<M: MemoryPort>(core: &M, address: u16) -> Result<Word, EntryFault>
    ensures { result ≡ word_at (M.words core.now) address }
{
    match core.load(address) {
        Ok(word) => Ok(word),
        Err(_) => Err(EntryFault::Outside(address)),
    }
}

/// The word at the n-th place after the call, from 1 on.
pub(crate) fn argument<M: MemoryPort>(regs: &Regs, core: &M, n: u16) -> Result<Word, EntryFault>
    requires { n ≤ 4 }
    ensures { result ≡ word_at (M.words core.now) (behind_call regs.now n) }
{
    word_at(core, behind_call(regs, n))
}

/// Whether so many words from an address on lie within the core.
pub(crate) fn is_within<M: MemoryPort>(core: &M, at: u16, count: u16) -> bool
    ensures { result ≡ nat_le (at + count) (length (M.words core.now)) }
{
    let words = 256 * u32::from(core.size());
    u32::from(at) + u32::from(count) <= words
}
