use crate::rows::holds;
use ctss_types::{
    Cause, ConsoleNo, EventKind, FileName, LineFault, LineText, Refusal, RunFault, Sequence,
    StepFault, UserNo, WordList, first_word, name_text, name_word,
};
use std::process::Abort;
use std::test::Fail;
use word36::Word;

/// Numbers, and those of them that a user or a console has.
static USERS: [(u8, Option<u8>); 3] = [(0, None), (30, Some(30)), (31, None)];

static CONSOLES: [(u8, Option<u8>); 2] = [(32, Some(32)), (33, None)];

#[test]
fn numbers_have_their_ranges(rt: HostRuntime) {
    for (row, (number, want)) in USERS.iter().enumerate() {
        holds(&rt, row, UserNo::new(*number).map(UserNo::number) == *want);
    }
    for (row, (number, want)) in CONSOLES.iter().enumerate() {
        holds(
            &rt,
            row,
            ConsoleNo::new(*number).map(ConsoleNo::number) == *want,
        );
    }
}

#[test]
fn lines_drop_trailing_blanks(rt: HostRuntime) -> Result<(), Fail> {
    let line = LineText::from_bytes(b"LOGIN ALFA  ")?;
    assert!(rt; (line.len(), line.at(6)) == (10, b'A'));
    Ok(())
}

#[test]
fn texts_that_are_no_lines(rt: HostRuntime) {
    assert!(rt; LineText::from_bytes(&[b'A'; 85]) == Err(LineFault::TooLong));
    assert!(rt; LineText::from_bytes(b"login") == Err(LineFault::NotBcd));
}

/// Adds a word to words, which differ from these before and not after.
fn add(rt: &impl Abort, words: &mut WordList, word: Word) -> Result<(), Fail> {
    let before = words.clone()?;
    assert!(rt; before == *words);
    words.push(word)?;
    assert!(rt; before != *words);
    Ok(())
}

#[test]
fn sequences_compare_by_their_items(rt: HostRuntime) -> Result<(), Fail> {
    let mut words = Sequence::new(rt.alloc());
    words.push(Word::signed(true, 7))?;
    add(&rt, &mut words, Word::signed(false, 0))?;
    assert!(rt; words.len() == 2);
    Ok(())
}

#[test]
fn words_stand_between_blanks(rt: HostRuntime) {
    let (first, rest) = first_word(b"  LOGIN ALFA ");
    let (second, rest) = first_word(rest);
    let (none, _) = first_word(rest);
    assert!(rt; first == b"LOGIN".as_slice());
    assert!(rt; second == b"ALFA".as_slice());
    assert!(rt; none.is_empty());
}

/// Texts of at most six characters, which are names.
static NAMES: [&str; 3] = ["HELLO", "", "MAD"];

#[test]
fn names_are_words(rt: HostRuntime) {
    assert!(rt; name_word(b"HELLO").bits() == 0o302543434660);
    for (row, text) in NAMES.iter().enumerate() {
        assert!(rt; text.len() <= 6);
        let name = FileName::new(Word::default(), name_word(text.as_bytes()));
        holds(&rt, row, name_text(name.second).as_str() == *text);
    }
    assert!(rt; LineText::joined(b"R ", b"1").as_str() == "R 1");
}

#[test]
fn faults_and_kinds_have_their_texts(rt: HostRuntime) -> Result<(), Fail> {
    let texts = format!(in rt.alloc();
        "{}\n{}\n{}\n{}\n{}\n{}\n{}\n{}\n",
        LineFault::TooLong,
        LineFault::NotBcd,
        RunFault::Drum,
        StepFault::Disk,
        Refusal::PastEnd,
        Cause::Preempt,
        EventKind::Spent,
        UserNo::of(30)
    )?;
    let want = "a line has at most 84 characters\n\
        a character is outside the 48\n\
        the drum failed\n\
        the disk failed\n\
        PAST END\n\
        PREEMPT\n\
        SPENT\n\
        30\n";
    let numbers = [Refusal::NoFile as u8, Refusal::BadCount as u8];
    assert!(rt; texts.as_str() == want && numbers == [1, 7]);
    Ok(())
}
