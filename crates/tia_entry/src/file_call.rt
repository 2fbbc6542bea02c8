//! The calls that ask for something of a file.
ghost use Rattle.std.specs.Prelude.{◌≡◌, ◌<◌, ◌^◌, length, IfOk};
ghost use Rattle.program_model.specs.Calls.{transfer_call, rename_call, mode_call, call_among, file_entries, common_entries};
ghost use Rattle.tia_entry.specs.Buffers.{HasBuffer, transfer_with};
ghost use Rattle.tia_entry.specs.Looks.{file_at, named_file};

use crate::argument::{argument, is_within, word_at};
use cpu_regs::{MemoryPort, Regs};
use ctss_types::FileName;
use program_model::{Call, CommonCall, EntryFault};
use word36::Word;

// The names of the entries as words, so that a call is told by a comparison of numbers.

/// FSTAT.
const FILE_STAT: u64 = 0o266263216360;

/// RDFILE.
const READ_FILE: u64 = 0o512426314325;

/// WRFILE.
const WRITE_FILE: u64 = 0o665126314325;

/// DELETE.
const DELETE_FILE: u64 = 0o242543256325;

/// RENAME.
const RENAME_FILE: u64 = 0o512545214425;

/// CHMODE.
const CHANGE_MODE: u64 = 0o233044462425;

/// CFSTAT.
const COMMON_STAT: u64 = 0o232662632163;

/// CRDFIL.
const COMMON_READ: u64 = 0o235124263143;

/// CWRFIL.
const COMMON_WRITE: u64 = 0o236651263143;

/// CDELET.
const COMMON_DELETE: u64 = 0o232425432563;

/// The entries that have a buffer of a file's words.
#[derive(Clone, Copy, Debug, PartialEq, Eq)]
enum TransferEntry {
    Read,
    Write,
    CommonRead,
    CommonWrite,
}

/// The call of an entry with a buffer of a file's words.
fn transfer_with(entry: TransferEntry, name: FileName, at: u16, count: u16, place: u64) -> Call
    ensures { result ≡ transfer_with entry name at count place }
{
    match entry {
        TransferEntry::Read => Call::ReadFile {
            name,
            at,
            count,
            place,
        },
        TransferEntry::Write => Call::WriteFile {
            name,
            at,
            count,
            place,
        },
        TransferEntry::CommonRead => Call::Common(CommonCall::Read {
            name,
            at,
            count,
            place,
        }),
        TransferEntry::CommonWrite => Call::Common(CommonCall::Write {
            name,
            at,
            count,
            place,
        }),
    }
}

/// The two names of a file, from an address on.
fn file_at<M: MemoryPort>(core: &M, address: u16) -> Result<FileName, EntryFault>
    requires { address < 2 ^ 15 }
    ensures { result ≡ file_at (M.words core.now) address }
{
    let first = word_at(core, address)?;
    let second = word_at(core, (address + 1) & 0o77777)?;
    Ok(FileName::new(first, second))
}

/// The file whose names the first argument points at.
fn named_file<M: MemoryPort>(regs: &Regs, core: &M) -> Result<FileName, EntryFault>
    ensures { result ≡ named_file regs.now (M.words core.now) }
{
    let names = argument(regs, core, 1)?;
    file_at(core, names.address())
}

/// The call with the file, the buffer and the place that the arguments name.
fn transfer_call<M: MemoryPort>(
    regs: &Regs,
    core: &M,
    entry: TransferEntry,
) -> Result<Call, EntryFault>
    ensures value { result ≡ transfer_call regs.now (M.words core.now) (transfer_with entry) }
    ensures within { IfOk result (HasBuffer (length (M.words core.now))) }
{
    let names = argument(regs, core, 1)?;
    let buffer = argument(regs, core, 2)?;
    let pointer = argument(regs, core, 3)?;
    let name = file_at(core, names.address())?;
    let place = word_at(core, pointer.address())?.magnitude();
    let at = buffer.address();
    let count = buffer.decrement();
    if !is_within(core, at, count) {
        return Err(EntryFault::Outside(at));
    }
    Ok(transfer_with(entry, name, at, count, place))
}

/// The call with the names of a file and its new ones.
fn rename_call<M: MemoryPort>(regs: &Regs, core: &M) -> Result<Call, EntryFault>
    ensures value { result ≡ rename_call regs.now (M.words core.now) }
    ensures within { IfOk result (HasBuffer (length (M.words core.now))) }
{
    let names = argument(regs, core, 1)?;
    let new_names = argument(regs, core, 2)?;
    let name = file_at(core, names.address())?;
    let to = file_at(core, new_names.address())?;
    Ok(Call::RenameFile { name, to })
}

/// The call with the names of a file and its new mode.
fn mode_call<M: MemoryPort>(regs: &Regs, core: &M) -> Result<Call, EntryFault>
    ensures value { result ≡ mode_call regs.now (M.words core.now) }
    ensures within { IfOk result (HasBuffer (length (M.words core.now))) }
{
    let names = argument(regs, core, 1)?;
    let mode = argument(regs, core, 2)?.address();
    let name = file_at(core, names.address())?;
    Ok(Call::ChangeMode { name, mode })
}

/// The calls that ask for something of a file.
#[tactic(auto, unfolding(ctss_types::specs::Words::name_of))]
pub(crate) fn call_of_file<M: MemoryPort>(
    regs: &Regs,
    core: &M,
    name: Word,
) -> Result<Call, EntryFault>
    ensures value { result ≡ call_among file_entries regs.now (M.words core.now) name }
    ensures within { IfOk result (HasBuffer (length (M.words core.now))) }
{
    match name.bits() {
        FILE_STAT => Ok(Call::FileStat {
            name: named_file(regs, core)?,
        }),
        READ_FILE => transfer_call(regs, core, TransferEntry::Read),
        WRITE_FILE => transfer_call(regs, core, TransferEntry::Write),
        DELETE_FILE => Ok(Call::DeleteFile {
            name: named_file(regs, core)?,
        }),
        RENAME_FILE => rename_call(regs, core),
        CHANGE_MODE => mode_call(regs, core),
        _ => call_of_common(regs, core, name),
    }
}

/// The calls that ask for something of a common file.
#[tactic(auto, unfolding(ctss_types::specs::Words::name_of))]
fn call_of_common<M: MemoryPort>(regs: &Regs, core: &M, name: Word) -> Result<Call, EntryFault>
    ensures value { result ≡ call_among common_entries regs.now (M.words core.now) name }
    ensures within { IfOk result (HasBuffer (length (M.words core.now))) }
{
    match name.bits() {
        COMMON_STAT => Ok(Call::Common(CommonCall::Stat {
            name: named_file(regs, core)?,
        })),
        COMMON_READ => transfer_call(regs, core, TransferEntry::CommonRead),
        COMMON_WRITE => transfer_call(regs, core, TransferEntry::CommonWrite),
        COMMON_DELETE => Ok(Call::Common(CommonCall::Delete {
            name: named_file(regs, core)?,
        })),
        _ => Err(EntryFault::NoSuchEntry),
    }
}
