//! What each instruction does to registers and core, and one step of the machine.
//!
//! All of it stands in `specs/`: `Step` (what a step gives, and the words of the rows), `Fixed`, `Logic`, `Index` (a row an
//! instruction), `Machine` (fetch, decode, do), `Results` (what the answers of the code mean), `Rows` (worked rows). The
//! functions here do nothing: each carries a row.
#![tactic(auto)]

ghost use Rattle.machine_model.specs.Rows.{RowOfCas, RowOfOverflow, RowOfDivision, RowOfLongShift, RowOfLogicalSum, RowOfCounts, RowOfReturn, RowOfPlaces, RowOfXec, RowOfEnds};

/// Comparisons of zeros with signs, and of negative numbers.
#[tactic(auto, using(crate::proofs::RowsComputed::row_of_cas))]
pub fn row_of_cas()
    ensures { RowOfCas }
{}

/// Sums, and the transfers on overflow.
#[tactic(auto, using(crate::proofs::RowsComputed::row_of_overflow))]
pub fn row_of_overflow()
    ensures { RowOfOverflow }
{}

/// Quotients, remainders and divide checks.
#[tactic(auto, using(crate::proofs::RowsComputed::row_of_division))]
pub fn row_of_division()
    ensures { RowOfDivision }
{}

/// Signs, counts and overflow of a long left shift.
#[tactic(auto, using(crate::proofs::RowsComputed::row_of_long_shift))]
pub fn row_of_long_shift()
    ensures { RowOfLongShift }
{}

/// A sum with its carry at the low end.
#[tactic(auto, using(crate::proofs::RowsComputed::row_of_logical_sum))]
pub fn row_of_logical_sum()
    ensures { RowOfLogicalSum }
{}

/// Index registers that count.
#[tactic(auto, using(crate::proofs::RowsComputed::row_of_counts))]
pub fn row_of_counts()
    ensures { RowOfCounts }
{}

/// A call and its return.
#[tactic(auto, using(crate::proofs::RowsComputed::row_of_return))]
pub fn row_of_return()
    ensures { RowOfReturn }
{}

/// Indexed and indirect places, and tags that only name a register.
#[tactic(auto, using(crate::proofs::RowsComputed::row_of_places))]
pub fn row_of_places()
    ensures { RowOfPlaces }
{}

/// Instructions that an XEC names.
#[tactic(auto, using(crate::proofs::RowsComputed::row_of_xec))]
pub fn row_of_xec()
    ensures { RowOfXec }
{}

/// Halts, a word off the table, addresses outside, and an entry.
#[tactic(auto, using(crate::proofs::RowsComputed::row_of_ends))]
pub fn row_of_ends()
    ensures { RowOfEnds }
{}
