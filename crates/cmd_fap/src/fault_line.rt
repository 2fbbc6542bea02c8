ghost use Rattle.std.specs.Prelude.{◌≡◌, map, IfOk};
ghost use Rattle.fap_assemble.specs.Follows.{numbered};
ghost use Rattle.user_model.specs.Texts.{fault_text};
ghost use Rattle.cmd_fap.specs.Assemblies.{line_of_fault};

use arrayvec::ArrayVec;
use cmd_program::put;
use ctss_types::{LineList, LineText, NoMemory};
use fap_assemble::CardFault;
use itoa::Buffer;
use std::alloc::{AllocError, Global};

/// The number of a card at fault, and of its fault.
#[tactic(auto, using(cmd_program::proofs::Decimals::decimal_is), unfolding(user_model::specs::Texts::fault_text))]
fn fault_line(fault: &CardFault) -> LineText
    ensures { result ≡ line_of_fault fault.now }
{
    let mut text = ArrayVec::new();
    let mut buffer = Buffer::new();
    put(&mut text, b"CARD ");
    put(&mut text, buffer.format(fault.card).as_bytes());
    put(&mut text, b" FAULT ");
    put(&mut text, buffer.format(fault.number).as_bytes());
    LineText::of(&text)
}

/// A line for each fault.
fn lines_of(alloc: Global, faults: &[CardFault]) -> Result<Vec<LineText>, AllocError>
    ensures { IfOk result (λ lines. lines.items ≡ map line_of_fault faults.now) }
{
    faults.iter().map(fault_line).collect(alloc)
}

/// A line for each fault, in order.
#[tactic(auto, using(crate::proofs::Lines::numbered_lines))]
pub(crate) fn fault_lines(alloc: Global, faults: &[CardFault]) -> Result<LineList, NoMemory>
    ensures { IfOk result (λ lines. lines ≡ map fault_text (numbered faults.now)) }
{
    let lines = lines_of(alloc, faults)?;
    Ok(LineList::from_vec(lines))
}
