use crate::rows::holds;
use command_line::ArgList;
use std::alloc::Global;
use std::test::Fail;
use text_model::Mode;

/// What a list of words asks for; none is a refusal.
fn mode_of(alloc: Global, words: &[&str]) -> Result<Option<Mode>, Fail> {
    let mut list = ArgList::new(alloc);
    for word in words {
        list.add(word)?;
    }
    Ok(list.mode()?)
}

/// Words, and what they ask for; those of which one is empty are refused. Other refusals are cases of run_cases.
static WORDS: [(&[&str], Option<Mode>); 15] = [
    (&["replay"], Some(Mode::Replay)),
    (&["dump"], Some(Mode::Dump)),
    (&["asm"], Some(Mode::Asm)),
    (&["load", "000000042"], Some(Mode::Load(42))),
    (&["load", "0"], Some(Mode::Load(0))),
    (&["load", "999999"], Some(Mode::Load(999_999))),
    (
        &["serve", "--port", "7094", "--turns", "2"],
        Some(Mode::Serve {
            port: 7094,
            turns: 2,
        }),
    ),
    (
        &["serve", "--turns", "2", "--port", "7094"],
        Some(Mode::Serve {
            port: 7094,
            turns: 2,
        }),
    ),
    (
        &["--port=65535", "--turns", "0", "serve"],
        Some(Mode::Serve {
            port: 65_535,
            turns: 0,
        }),
    ),
    (
        &["--turns=100000", "serve", "--port=1"],
        Some(Mode::Serve {
            port: 1,
            turns: 100_000,
        }),
    ),
    (
        &["--port", "7094", "serve", "--turns=2"],
        Some(Mode::Serve {
            port: 7094,
            turns: 2,
        }),
    ),
    (
        &["--port", "007094", "--turns=000000002", "serve"],
        Some(Mode::Serve {
            port: 7094,
            turns: 2,
        }),
    ),
    (&[""], None),
    (&["load", ""], None),
    (&["serve", "--turns=2", "--port", ""], None),
];

#[test]
fn words_ask_for_a_mode(rt: HostRuntime) -> Result<(), Fail> {
    for (row, (words, want)) in WORDS.iter().enumerate() {
        holds(&rt, row, mode_of(rt.alloc(), words)? == *want);
    }
    Ok(())
}
