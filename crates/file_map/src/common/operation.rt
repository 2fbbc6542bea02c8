ghost use Rattle.file_map.specs.Applied.{Applies};

use crate::common::reads::{get_words, read_words, size_of_file};
use crate::common::writes::{delete_file, put_words, write_words};
use crate::fault::PortFault;
use crate::port::FilePort;
use ctss_types::{CommonOp, Reply};

/// Does an operation on the common files and gives its reply, which may be a refusal. Where memory lacked the files are
/// as before.
pub fn apply<F: FilePort>(op: &CommonOp, files: &mut F) -> Result<Reply, PortFault>
    requires usable { F.Usable files.old }
    ensures { Applies F.FilePort op.now result files.old files.new }
{
    match op {
        CommonOp::Stat(name) => size_of_file(*name, files),
        CommonOp::Read { name, place, count } => read_words(*name, *place, *count, files),
        CommonOp::Write { name, place, words } => write_words(
            *name,
            *place,
            words.as_slice(),
            files,
        ),
        CommonOp::Delete(name) => delete_file(*name, files),
        CommonOp::Put { name, words } => put_words(*name, words.as_slice(), files),
        CommonOp::Get(name) => get_words(*name, files),
    }
}
