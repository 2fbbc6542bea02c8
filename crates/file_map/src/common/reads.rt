//! The operations that leave the files as they are.
ghost use Rattle.std.specs.Prelude.{IfOk, IsErrOf};
ghost use Rattle.file_map.specs.Answers.{IsNoRefusal};
ghost use Rattle.file_model.specs.Commons.{ReplyFits};
ghost use Rattle.file_map.specs.Applied.{IsApplied, Applies};
ghost use Rattle.ctss_types.specs.declared.file.CommonOp.{CommonOp};

use crate::fault::PortFault;
use crate::port::FilePort;
use ctss_types::{FileName, Reply};

/// Tells a file's size.
#[tactic(auto, using(crate::proofs::Replies::stat_told, crate::proofs::Replies::stat_refused))]
pub(crate) fn size_of_file<F: FilePort>(name: FileName, files: &F) -> Result<Reply, PortFault>
    requires usable { F.Usable files.now }
    ensures done { IfOk result (λ reply. IsApplied (F.tells files.now) (F.quota files.now)
        (CommonOp.Stat name) reply (F.files files.now) (F.files files.now)) }
    ensures fits { IfOk result ReplyFits }
    ensures fault { IsNoRefusal result }
    ensures disk { ¬ IsErrOf result PortFault.Disk }
{
    match files.stat(name) {
        Ok(stat) => Ok(Reply::Size(4 * stat.words + u64::from(stat.mode))),
        Err(PortFault::Refused(refusal)) => Ok(Reply::Refused(refusal)),
        Err(PortFault::Disk | PortFault::NoMemory) => unreachable!(),
    }
}

/// Reads words of a file.
#[tactic(auto, using(crate::proofs::Replies::read_told, crate::proofs::Replies::read_refused))]
pub(crate) fn read_words<F: FilePort>(
    name: FileName,
    place: u64,
    count: u16,
    files: &mut F,
) -> Result<Reply, PortFault>
    requires usable { F.Usable files.old }
    ensures { Applies F.FilePort (CommonOp.Read name place count) result files.old files.new }
{
    match files.read(name, place, count) {
        Ok(words) => Ok(Reply::Words(words)),
        Err(PortFault::Refused(refusal)) => Ok(Reply::Refused(refusal)),
        Err(PortFault::Disk) => Err(PortFault::Disk),
        Err(PortFault::NoMemory) => Err(PortFault::NoMemory),
    }
}

/// Reads all words of a file.
#[tactic(auto, using(crate::proofs::Replies::get_told, crate::proofs::Replies::get_refused))]
pub(crate) fn get_words<F: FilePort>(name: FileName, files: &mut F) -> Result<Reply, PortFault>
    requires usable { F.Usable files.old }
    ensures { Applies F.FilePort (CommonOp.Get name) result files.old files.new }
{
    match files.get(name) {
        Ok(words) => Ok(Reply::Words(words)),
        Err(PortFault::Refused(refusal)) => Ok(Reply::Refused(refusal)),
        Err(PortFault::Disk) => Err(PortFault::Disk),
        Err(PortFault::NoMemory) => Err(PortFault::NoMemory),
    }
}
