//! What lies behind users' sessions, as the supervisor sees it: the cores of their programs and their directories. It brings a
//! user's blocks in, cuts and extends them, and does a step of a session over core and directory.
#![tactic(auto)]

mod backing;
mod behind;
mod first;
mod settling;
mod turn;

pub use backing::{Backing, Made};
pub use behind::Behind;
pub use first::first_cores;
pub use image_map::{DrumFault, Plan};
pub use settling::settle;
