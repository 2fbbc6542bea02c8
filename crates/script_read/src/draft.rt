ghost use Rattle.std.specs.Prelude.{◌≡◌};
ghost use Rattle.script_read.specs.Others.{others_of};

use ctss_types::{AccountList, NoMemory, OwnedFile, OwnedFiles, Params, TimedList};
use text_model::ScriptCause;

/// What the cards so far say, with the sums of the quotas and the tick of the last event.
///
/// The last file stands by itself, since words may still come to it. Its owner's other files have `others` tracks.
#[derive(Drop)]
pub struct Draft {
    pub params: Option<Params>,
    pub accounts: AccountList,
    pub blocks: u16,
    pub tracks: u16,
    pub files: OwnedFiles,
    pub file: Option<OwnedFile>,
    pub others: u16,
    pub events: TimedList,
    pub tick: u64,
    pub end: Option<u64>,
    ghost counted: { others ≡ others_of file files },
}

/// Why a card isn't taken.
#[derive(Drop)]
pub enum CardFault {
    Refused(ScriptCause),
    NoMemory,
}

impl From<NoMemory> for CardFault {
    ghost use Rattle.std.specs.Prelude.{◌≡◌};
    ghost use Rattle.script_read.specs.declared.draft.CardFault.TheVariants as card;

    ghost from_gives = { λ _ e. e ≡ card.NoMemory };

    fn from(_: NoMemory) -> CardFault {
        CardFault::NoMemory
    }
}
