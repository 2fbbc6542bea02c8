//! Users' images: what each user has in core and on the drum, and how it comes into core.
#![tactic(auto)]

mod image;
mod laws;
mod port;
mod transfer;

pub use drum_slots::DrumFault;
pub use image::{Image, no_sizes};
pub use laws::{others_stay, resident_is_in_core, room_for_all};
pub use onion_swap::Plan;
pub use port::{Port, store_in};
