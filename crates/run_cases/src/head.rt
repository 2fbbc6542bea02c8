//! The lines that say how a case is done.
use crate::case::{Case, Device, Each, Program, Stream};
use anyhow::{Result, bail};
use medium::Damage;
use std::alloc::Global;

/// The numbers of a line.
fn numbers(alloc: Global, fields: &str) -> Result<Vec<u64>> {
    let mut numbers = Vec::new(alloc);
    for field in fields.split_whitespace() {
        numbers.push(field.parse::<u64>()?)?;
    }
    Ok(numbers)
}

/// A stream of the bytes of a call and the calls that fail.
fn stream(alloc: Global, fields: &str) -> Result<Stream> {
    let mut fails = numbers(alloc, fields)?;
    if fails.is_empty() {
        bail!("a stream has the bytes of a call");
    }
    let piece = fails.remove(0) as usize;
    Ok(Stream { piece, fails })
}

/// A read or EACH, a place and an octal word.
fn damage(fields: &str) -> Result<Damage> {
    let Some((read, rest)) = fields.split_once(" ") else {
        bail!("a damage has a read, a place and a word");
    };
    let Some((place, word)) = rest.split_once(" ") else {
        bail!("a damage has a read, a place and a word");
    };
    let read = match read {
        "EACH" => None,
        _ => Some(read.parse::<u64>()?),
    };
    Ok(Damage {
        read,
        place: place.parse::<u16>()?,
        word: u64::from_str_radix(word, 8)?,
    })
}

/// A device, and how many of its calls fail at most.
fn each(fields: &str) -> Result<Each> {
    let Some((device, most)) = fields.split_once(" ") else {
        bail!("EACH has a device and a number");
    };
    let device = match device {
        "SOURCE" => Device::Source,
        "SINK" => Device::Sink,
        "DRUM" => Device::Drum,
        "DISK" => Device::Disk,
        _ => bail!("a device is SOURCE, SINK, DRUM or DISK"),
    };
    let most = most.parse::<u64>()?;
    Ok(Each { device, most })
}

impl Case {
    /// The words of the command line.
    fn add_words(&mut self, alloc: Global, fields: &str) -> Result<()> {
        for field in fields.split_whitespace() {
            self.words.push(String::from_str(alloc, field)?)?;
        }
        Ok(())
    }

    /// One more line of how it is done. Answers whether the text begins behind it.
    pub(crate) fn add_head(&mut self, alloc: Global, line: &str) -> Result<bool> {
        let (word, fields) = line.split_once(" ").unwrap_or((line, ""));
        match word {
            "WORDS" => self.add_words(alloc, fields)?,
            "PICTURE" => {
                self.program = Program::Picture;
                self.add_words(alloc, fields)?;
            }
            "LISTING" => {
                self.program = Program::Listing;
                self.add_words(alloc, fields)?;
            }
            "SOURCE" => self.source = stream(alloc, fields)?,
            "SINK" => {
                let (room, rest) = fields.split_once(" ").unwrap_or((fields, ""));
                self.room = room.parse::<usize>()?;
                self.sink = stream(alloc, rest)?;
            }
            "DRUM" => self.drum.fails = numbers(alloc, fields)?,
            "DRUM-DAMAGE" => self.drum.damage = Some(damage(fields)?),
            "DRUM-CALLS" => self.drum_calls = Some(fields.parse::<u64>()?),
            "EACH" => self.each = Some(each(fields)?),
            "DISK" => self.disk.fails = numbers(alloc, fields)?,
            "DISK-DAMAGE" => self.disk.damage = Some(damage(fields)?),
            "BYTES" => self.text = hex::decode(alloc, fields)?,
            "LAST" => self.tells_last = true,
            "CALLS" => self.tells_calls = true,
            "TURNS" => {
                self.turns = Some(fields.parse::<u32>()?);
                return Ok(true);
            }
            "TEXT" => return Ok(true),
            _ => bail!("no such line before TEXT"),
        }
        Ok(false)
    }
}
