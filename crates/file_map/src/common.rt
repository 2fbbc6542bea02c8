//! Operations on the common files: a directory that all users share.
mod operation;
mod reads;
mod writes;

pub use operation::apply;
