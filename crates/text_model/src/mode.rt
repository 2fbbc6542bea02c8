/// What the program is asked to do.
#[derive(Clone, Copy, Debug, PartialEq, Eq)]
pub enum Mode {
    /// A script is read and run, and its report is written.
    Replay,
    /// The same, with the words of each file in the report.
    Dump,
    /// The script that is made of this number is run, and a summary is written.
    Load(u32),
    /// Cards are read and assembled, and their deck is written.
    Asm,
    /// A script without events is read, and people connect at a port, 1 to 65,535, for at most 100,000 turns of 1000 ticks. The
    /// script with what they did is written, and its report.
    Serve { port: u16, turns: u32 },
}
