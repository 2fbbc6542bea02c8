//! Which record of a drum keeps which block of which user, and the blocks kept there.
#![tactic(auto)]

mod slots;
mod table;

pub use slots::Slots;
pub use table::{DrumFault, SlotTable};
