//! Reading cases line by line.
use crate::case::{Caller, Case, Piece};
use anyhow::{Context, Result, bail};
use console_link::{LinkAt, LinkCall};
use std::alloc::Global;

/// Which part of a case is read.
#[derive(Clone, Copy, PartialEq, Eq)]
enum Part {
    Head,
    Text,
    Link,
}

/// The cases so far, and where in the last one the reader is.
#[derive(Drop)]
pub(crate) struct CaseReader {
    alloc: Global,
    cases: Vec<Case>,
    part: Part,
}

fn turn(field: &str) -> Result<u32> {
    let turn = field.parse::<u32>().context("reading a turn")?;
    Ok(turn)
}

/// A turn and bytes as hex digits.
fn piece(alloc: Global, rest: &str) -> Result<Piece> {
    let Some((field, digits)) = rest.split_once(" ") else {
        bail!("BYTES has a turn and bytes");
    };
    let turn = turn(field)?;
    let bytes = hex::decode(alloc, digits)?;
    Ok(Piece { turn, bytes })
}

/// A kind of call, a connection where it has one, and a number.
fn call(rest: &str) -> Result<LinkAt> {
    let Some((kind, fields)) = rest.split_once(" ") else {
        bail!("a call has a kind and a number");
    };
    let (id, number) = fields.split_once(" ").unwrap_or(("0", fields));
    let id = id.parse::<u32>()?;
    let call = match kind {
        "OPEN" => LinkCall::Open,
        "ACCEPT" => LinkCall::Accept,
        "WAIT" => LinkCall::Wait,
        "READ" => LinkCall::Read(id),
        "WRITE" => LinkCall::Write(id),
        _ => bail!("a call is OPEN, ACCEPT, WAIT, READ or WRITE"),
    };
    let number = number.parse::<u64>()?;
    Ok(LinkAt { call, number })
}

impl Caller {
    /// A line about a caller.
    fn add(&mut self, alloc: Global, word: &str, rest: &str) -> Result<()> {
        match word {
            "BYTES" => self.pieces.push(piece(alloc, rest)?)?,
            "TYPED" => {
                let all = piece(alloc, rest)?;
                for byte in all.bytes.as_slice() {
                    let mut bytes = Vec::new(alloc);
                    bytes.push(*byte)?;
                    let turn = all.turn;
                    self.pieces.push(Piece { turn, bytes })?;
                }
            }
            "OVER" => self.over = Some(turn(rest)?),
            "FAILS" => self.fails.push(turn(rest)?)?,
            _ => bail!("no such line behind LINK"),
        }
        Ok(())
    }
}

impl Case {
    /// A line behind LINK.
    fn add_link(&mut self, alloc: Global, line: &str) -> Result<()> {
        let Some((word, rest)) = line.split_once(" ") else {
            bail!("a line behind LINK has a word and more");
        };
        match word {
            "PEER" => self.callers.push(Caller {
                turn: turn(rest)?,
                pieces: Vec::new(alloc),
                over: None,
                fails: Vec::new(alloc),
            })?,
            "FAIL" => self.link_fails.push(call(rest)?)?,
            "LATE" => self.link_waits.push(call(rest)?)?,
            _ => match self.callers.last_mut() {
                Some(caller) => caller.add(alloc, word, rest)?,
                None => bail!("PEER comes before what a caller does"),
            },
        }
        Ok(())
    }
}

impl CaseReader {
    /// Nothing yet.
    pub(crate) fn new(alloc: Global) -> CaseReader {
        CaseReader {
            alloc,
            cases: Vec::new(alloc),
            part: Part::Head,
        }
    }

    /// One more line.
    pub(crate) fn add(&mut self, line: &str) -> Result<()> {
        if let Some(("CASE", name)) = line.split_once(" ") {
            let name = String::from_str(self.alloc, name)?;
            self.cases.push(Case::new(self.alloc, Some(name)))?;
            self.part = Part::Head;
            return Ok(());
        }
        if self.cases.is_empty() {
            self.cases.push(Case::new(self.alloc, None))?;
        }
        let Some(case) = self.cases.last_mut() else {
            bail!("no case");
        };
        match self.part {
            Part::Head => {
                if case.add_head(self.alloc, line)? {
                    self.part = Part::Text;
                }
            }
            Part::Text if line == "LINK" => self.part = Part::Link,
            Part::Text => {
                case.text.extend_from_slice(line.as_bytes())?;
                case.text.push(b'\n')?;
            }
            Part::Link => case.add_link(self.alloc, line)?,
        }
        Ok(())
    }

    /// All cases.
    pub(crate) fn cases(&self) -> &[Case] {
        &self.cases
    }
}
