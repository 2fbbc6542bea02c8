use ctss_types::{FileBody, FileName, NoMemory, Refusal, Sequence};
use file_map::{FilePort, Files, PortFault};
use std::alloc::Global;
use std::process::Abort;
use std::test::Fail;
use word36::Word;

/// A change of files that go by numbers, or what is asked of them.
#[derive(Clone, Copy)]
enum Act {
    Write(u32, u64),
    Append(u32),
    Put(u32),
    Rename(u32, u32),
    Delete(u32),
    Mode(u32, u8),
    DropTemporary,
    /// The words stand in a file from a place on, where so many are read.
    Reads(u32, u64, u16),
    /// A file has just the words.
    Gets(u32),
    /// How many words and which mode a file has.
    Sizes(u32, u64, u8),
    /// The files are just those of the numbers, in this order.
    Lists,
    Tracks(u32),
    Quota(u16),
}

/// Whether what was asked is so, or the fault.
type Answer = Result<bool, PortFault>;

const DONE: Answer = Ok(true);

const NO_FILE: Answer = Err(PortFault::Refused(Refusal::NoFile));

const READ_ONLY: Answer = Err(PortFault::Refused(Refusal::ReadOnly));

const OVER_QUOTA: Answer = Err(PortFault::Refused(Refusal::Quota));

const NAME_USED: Answer = Err(PortFault::Refused(Refusal::NameUsed));

const PAST_END: Answer = Err(PortFault::Refused(Refusal::PastEnd));

const BAD_MODE: Answer = Err(PortFault::Refused(Refusal::BadMode));

/// What is done, with so many fives and the numbers behind them, of words or of files that are listed, and the answer.
type Row = (Act, u16, &'static [u32], Answer);

/// Each begins with a new directory, which has this quota. 863 fives and a word fill two tracks.
static DIRECTORIES: [(u16, &[Row]); 4] = [
    (
        2,
        &[
            (Act::Write(1, 0), 863, &[7], DONE),
            (Act::Write(1, 864), 0, &[1], OVER_QUOTA),
            (Act::Write(1, 863), 0, &[1, 2], OVER_QUOTA),
            (Act::Append(1), 0, &[1, 2], OVER_QUOTA),
            (Act::Put(2), 0, &[], OVER_QUOTA),
            (Act::Reads(1, 863, 1), 0, &[7], DONE),
            (Act::Reads(1, 864, 0), 0, &[], DONE),
            (Act::Reads(1, 864, 1), 0, &[], PAST_END),
        ],
    ),
    (
        2,
        &[
            (Act::Append(1), 863, &[7], DONE),
            (Act::Put(1), 0, &[3], DONE),
            (Act::Append(1), 0, &[1, 2], DONE),
            (Act::Write(1, 1), 0, &[4], DONE),
            (Act::Tracks(1), 0, &[], DONE),
            (Act::Gets(1), 0, &[3, 4, 2], DONE),
        ],
    ),
    (
        9,
        &[
            (Act::Put(1), 0, &[1], DONE),
            (Act::Put(2), 0, &[1], DONE),
            (Act::Rename(3, 4), 0, &[], NO_FILE),
            (Act::Rename(1, 2), 0, &[], NAME_USED),
            (Act::Rename(1, 1), 0, &[], DONE),
            (Act::Write(3, 1), 0, &[1], NO_FILE),
            (Act::Write(1, 2), 0, &[1], PAST_END),
            // A write that is refused changes no word.
            (Act::Write(1, 2), 0, &[7], PAST_END),
            (Act::Gets(1), 0, &[1], DONE),
            (Act::Mode(1, 4), 0, &[], BAD_MODE),
            (Act::Mode(1, 2), 0, &[], DONE),
            (Act::Put(1), 0, &[], READ_ONLY),
            (Act::Delete(1), 0, &[], READ_ONLY),
            (Act::Mode(1, 3), 0, &[], DONE),
            (Act::Mode(1, 1), 0, &[], READ_ONLY),
            (Act::Sizes(1, 1, 3), 0, &[], DONE),
            (Act::Sizes(3, 0, 0), 0, &[], NO_FILE),
        ],
    ),
    (
        9,
        &[
            (Act::Put(1), 0, &[], DONE),
            (Act::Put(2), 0, &[], DONE),
            (Act::Put(3), 0, &[], DONE),
            (Act::Put(4), 0, &[], DONE),
            (Act::Rename(2, 5), 0, &[], DONE),
            (Act::Lists, 0, &[1, 5, 3, 4], DONE),
            (Act::Delete(1), 0, &[], DONE),
            (Act::Lists, 0, &[5, 3, 4], DONE),
            (Act::Mode(3, 0), 0, &[], DONE),
            (Act::DropTemporary, 0, &[], DONE),
            (Act::Lists, 0, &[5, 4], DONE),
            (Act::Tracks(2), 0, &[], DONE),
            (Act::Quota(9), 0, &[], DONE),
        ],
    ),
];

fn word(n: u32) -> Word {
    Word::signed(false, u64::from(n))
}

fn name(n: u32) -> FileName {
    FileName::new(word(n), word(9))
}

fn words_of(alloc: Global, fives: u16, numbers: &[u32]) -> Result<Vec<Word>, NoMemory> {
    let mut words = vec![in alloc; word(5); usize::from(fives)]?;
    for n in numbers {
        words.push(word(*n))?;
    }
    Ok(words)
}

/// Whether the files are just those whose names begin with these words, in this order.
fn lists(files: &Files, words: &[Word]) -> Answer {
    let rows = files.list()?;
    let mut alike = rows.len() == words.len();
    for (row, first) in rows.as_slice().iter().zip(words) {
        alike = alike && row.name.first == *first;
    }
    Ok(alike)
}

/// Whether a file has so many words and this mode.
fn has_sizes(files: &Files, n: u32, words: u64, mode: u8) -> Answer {
    let stat = files.stat(name(n))?;
    Ok(stat.words == words && stat.mode == mode)
}

fn done(files: &mut Files, act: Act, words: &[Word]) -> Answer {
    match act {
        Act::Write(n, place) => files.write(name(n), place, words)?,
        Act::Append(n) => files.append(name(n), words)?,
        Act::Put(n) => files.put(name(n), words)?,
        Act::Rename(n, to) => files.rename(name(n), name(to))?,
        Act::Delete(n) => files.delete(name(n))?,
        Act::Mode(n, mode) => files.chmode(name(n), mode)?,
        Act::DropTemporary => files.drop_temporary(),
        Act::Reads(n, place, count) => {
            return Ok(files.read(name(n), place, count)?.as_slice() == words);
        }
        Act::Gets(n) => return Ok(files.get(name(n))?.as_slice() == words),
        Act::Sizes(n, words, mode) => return has_sizes(files, n, words, mode),
        Act::Lists => return lists(files, words),
        Act::Tracks(want) => return Ok(files.tracks() == want),
        Act::Quota(want) => return Ok(files.quota() == want),
    }
    Ok(true)
}

/// Does each in a new directory.
fn all_done(rt: &impl Abort, alloc: Global, quota: u16, rows: &[Row]) -> Result<(), NoMemory> {
    let mut files = Files::new(alloc, quota);
    for (place, (act, fives, numbers, answer)) in rows.iter().enumerate() {
        let words = words_of(alloc, *fives, numbers)?;
        let told = done(&mut files, *act, &words);
        assert!(rt; told == *answer, "row {place}");
    }
    Ok(())
}

#[test]
fn operations_are_answered(rt: HostRuntime) -> Result<(), Fail> {
    for (quota, rows) in &DIRECTORIES {
        all_done(&rt, rt.alloc(), *quota, rows)?;
    }
    Ok(())
}

#[test]
fn begins_and_ends_with_a_list(rt: HostRuntime) -> Result<(), Fail> {
    let first = [FileBody {
        name: name(1),
        mode: 2,
        words: Sequence::new(rt.alloc()),
    }];
    let files = Files::with_first(rt.alloc(), 1, &first)?;
    let last = files.into_list()?;
    assert!(rt; last.as_slice() == first.as_slice());
    Ok(())
}

#[test]
fn tells_its_faults(rt: HostRuntime) -> Result<(), Fail> {
    let refused = PortFault::Refused(Refusal::NoFile);
    let told = format!(in rt.alloc(); "{}; {}; {}", refused, PortFault::Disk, PortFault::NoMemory)?;
    assert!(rt; told.as_str() == "FILE NOT FOUND; the disk failed; out of memory");
    Ok(())
}
