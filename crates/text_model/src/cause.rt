ghost use Rattle.std.specs.Prelude.{◌≡◌};
ghost use Rattle.text_model.specs.Causes.{cause_number};

/// Why a script is refused. The first cause of a card that applies is tried in the order NotACard, OverLimit,
/// UnknownNumber, TimeFalls, DrumSmall, DiskSmall.
#[derive(Clone, Copy, Debug, PartialEq, Eq, Hash)]
pub enum ScriptCause {
    /// The card has none of the forms, stands out of order, or repeats a name.
    NotACard = 1,
    /// The tick is less than that of the event before.
    TimeFalls = 2,
    /// No account has the number, or it isn't the next one.
    UnknownNumber = 3,
    /// A number, a text or an account's tracks are above what is allowed.
    OverLimit = 4,
    /// The accounts' blocks are more than those of the drum.
    DrumSmall = 5,
    /// The tracks of all accounts and of the common files are more than those of the disk.
    DiskSmall = 6,
    /// No END card stands last.
    NoEnd = 7,
    /// The text has too many bytes.
    TooLong = 8,
}

impl ScriptCause {
    /// The number by which a refusal tells the cause, from 1 to 8.
    pub fn number(self) -> u8
        ensures { result ≡ cause_number self }
    {
        self as u8
    }
}

/// A script's refusal: at a card, counted from 1, or at 0 for the whole text.
#[derive(Clone, Copy, Debug, PartialEq, Eq, Hash)]
pub struct ScriptRefusal {
    pub card: u32,
    pub cause: ScriptCause,
}
