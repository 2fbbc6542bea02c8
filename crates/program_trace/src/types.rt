use cpu_regs::Regs;
use ctss_types::{Items, Sequence};
use word36::Word;

/// A step of a program.
#[derive(Drop)]
pub struct TracedStep {
    /// The place of the instruction.
    pub place: u16,
    /// The instruction, where its place lies within the core.
    pub word: Option<Word>,
    pub before: Regs,
    /// The registers after it, where it leaves a program.
    pub after: Option<Regs>,
    /// The lines that it read and wrote.
    pub items: Items,
}

/// How a trace ends.
#[derive(Clone, Copy, Debug, PartialEq, Eq)]
pub enum TraceEnd {
    /// The program is over, or was stopped.
    Stopped,
    /// The program wants a line, and there is none.
    Waits,
    /// The program goes on behind the steps that were asked for.
    Unfinished,
}

/// The steps of a program that is run alone.
#[derive(Drop)]
pub struct Trace {
    pub steps: Sequence<TracedStep>,
    /// Where the next instruction stands.
    pub place: u16,
    pub end: TraceEnd,
}
