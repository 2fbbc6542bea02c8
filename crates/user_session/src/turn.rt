use ctss_types::{Apart, CommonOp, Ending};
use word36::Word;

/// What a step that was done did, and whether it took the clock.
#[derive(Clone, Copy, Debug, PartialEq, Eq)]
pub struct Step {
    pub ending: Ending,
    pub clock: bool,
}

/// A step; or none, where a line is wanted and none is unread; or the operation on common files that the step has to make
/// before it is done, with whose reply it goes on. The operation lies apart, since it is large and most steps make none.
#[derive(Debug, PartialEq, Eq, Drop)]
pub enum Turn {
    Waits,
    Done(Step),
    Asks(Apart<CommonOp>),
}

/// What an instruction of a program comes to: a step, or a supervisor entry that is still to be done.
#[derive(Clone, Copy, Debug, PartialEq, Eq)]
pub(crate) enum Instructed {
    Done(Step),
    Entry(Word),
}
