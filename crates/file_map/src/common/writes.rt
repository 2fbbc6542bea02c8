//! The operations that change the files.
ghost use Rattle.std.specs.Prelude.{IsErrOf};
ghost use Rattle.file_map.specs.Applied.{Applies};
ghost use Rattle.ctss_types.specs.declared.file.CommonOp.{CommonOp};

use crate::fault::PortFault;
use crate::port::FilePort;
use ctss_types::{FileName, Reply};
use word36::Word;

/// Writes words into a file.
#[tactic(auto, using(crate::proofs::Replies::write_done, crate::proofs::Replies::write_refused))]
pub(crate) fn write_words<F: FilePort>(
    name: FileName,
    place: u64,
    words: &[Word],
    files: &mut F,
) -> Result<Reply, PortFault>
    requires usable { F.Usable files.old }
    ensures { Applies F.FilePort (CommonOp.Write name place words.now) result files.old files.new }
{
    match files.write(name, place, words) {
        Ok(()) => Ok(Reply::Done),
        Err(PortFault::Refused(refusal)) => Ok(Reply::Refused(refusal)),
        Err(PortFault::Disk) => Err(PortFault::Disk),
        Err(PortFault::NoMemory) => Err(PortFault::NoMemory),
    }
}

/// Replaces a file's words.
#[tactic(auto, using(crate::proofs::Replies::put_done, crate::proofs::Replies::put_refused))]
pub(crate) fn put_words<F: FilePort>(
    name: FileName,
    words: &[Word],
    files: &mut F,
) -> Result<Reply, PortFault>
    requires usable { F.Usable files.old }
    ensures { Applies F.FilePort (CommonOp.Put name words.now) result files.old files.new }
{
    match files.put(name, words) {
        Ok(()) => Ok(Reply::Done),
        Err(PortFault::Refused(refusal)) => Ok(Reply::Refused(refusal)),
        Err(PortFault::Disk) => Err(PortFault::Disk),
        Err(PortFault::NoMemory) => Err(PortFault::NoMemory),
    }
}

/// Takes a file out.
#[tactic(auto, using(crate::proofs::Replies::delete_done, crate::proofs::Replies::delete_refused))]
pub(crate) fn delete_file<F: FilePort>(name: FileName, files: &mut F) -> Result<Reply, PortFault>
    requires usable { F.Usable files.old }
    ensures applies { Applies F.FilePort (CommonOp.Delete name) result files.old files.new }
    ensures disk { ¬ IsErrOf result PortFault.Disk }
    ensures memory { ¬ IsErrOf result PortFault.NoMemory }
{
    match files.delete(name) {
        Ok(()) => Ok(Reply::Done),
        Err(PortFault::Refused(refusal)) => Ok(Reply::Refused(refusal)),
        Err(PortFault::Disk | PortFault::NoMemory) => unreachable!(),
    }
}
