ghost use Rattle.std.specs.Prelude.{◌≡◌, List};
ghost use Rattle.ctss_types.specs.Names.{NamePair};
ghost use Rattle.ctss_types.specs.declared.file.FileBody.{FileBody};
ghost use Rattle.file_model.specs.Files.{moded};
ghost use Rattle.file_model.specs.Texts.{refusal_text};

use ctss_types::{LineText, Refusal};

/// Why an operation is refused.
pub fn refusal_text(refusal: Refusal) -> LineText
    ensures { result ≡ refusal_text refusal }
{
    match refusal {
        Refusal::NoFile => LineText::of(b"FILE NOT FOUND"),
        Refusal::ReadOnly => LineText::of(b"READ ONLY"),
        Refusal::Quota => LineText::of(b"QUOTA EXCEEDED"),
        Refusal::NameUsed => LineText::of(b"NAME IN USE"),
        Refusal::PastEnd => LineText::of(b"PAST END"),
        Refusal::BadMode => LineText::of(b"BAD MODE"),
        Refusal::BadCount => LineText::of(b"BAD COUNT"),
    }
}

/// A mode as a directory takes it: all modes above 3 are refused alike.
#[tactic(auto, using(crate::proofs::Modes::mode_within))]
pub fn mode_within(mode: u16) -> u8
    ensures { (name : NamePair) (files : List FileBody) → moded name result files ≡ moded name mode files }
{
    mode.min(4) as u8
}
