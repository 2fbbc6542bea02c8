ghost use Rattle.std.specs.Prelude.{◌≡◌, map, IfOk};
ghost use Rattle.file_model.specs.Texts.{tracks_line, listing_lines};
ghost use Rattle.file_map.specs.Listing.{listing_of};
ghost use Rattle.cmd_program.specs.Rows.{row_line};

use crate::part::{put, put_right};
use arrayvec::ArrayVec;
use bcd48::text6;
use ctss_types::{LineList, LineText, NoMemory};
use file_map::{FilePort, Listing, ListingRow, PortFault};
use itoa::Buffer;
use std::alloc::{AllocError, Global};

/// A line for each file, in order of making, and one for the tracks.
#[tactic(auto, using(crate::proofs::Rows::rows_are))]
pub fn listing<F: FilePort>(alloc: Global, files: &F) -> Result<LineList, NoMemory>
    requires { F.Usable files.now }
    ensures { IfOk result (λ lines. lines ≡ listing_lines (F.quota files.now) (F.files files.now)) }
{
    let rows = rows_of(files)?;
    let mut lines = row_lines(alloc, rows.as_slice())?;
    lines.push(tracks_line(files.tracks(), files.quota()))?;
    Ok(LineList::from_vec(lines))
}

/// A row for each file.
fn rows_of<F: FilePort>(files: &F) -> Result<Listing, NoMemory>
    requires { F.Usable files.now }
    ensures { IfOk result (λ rows. rows ≡ listing_of (F.files files.now)) }
{
    match files.list() {
        Ok(rows) => Ok(rows),
        Err(fault) => match fault {
            PortFault::NoMemory => Err(NoMemory),
            PortFault::Refused(_) | PortFault::Disk => unreachable!(),
        },
    }
}

/// A line for each row.
fn row_lines(alloc: Global, rows: &[ListingRow]) -> Result<Vec<LineText>, AllocError>
    ensures { IfOk result (λ lines. lines.items ≡ map row_line rows.now) }
{
    rows.iter().map(row_line).collect(alloc)
}

/// The names in 6 places each, the mode, and the number of words in 7 places.
#[tactic(auto, using(crate::proofs::Decimals::decimal_is, bcd48::proofs::Table::all_characters))]
fn row_line(row: &ListingRow) -> LineText
    ensures { result ≡ row_line row.now }
{
    let mut text = ArrayVec::new();
    let mut buffer = Buffer::new();
    put(&mut text, &text6(row.name.first.bits()));
    put(&mut text, b" ");
    put(&mut text, &text6(row.name.second.bits()));
    put(&mut text, b" ");
    put(&mut text, buffer.format(row.mode).as_bytes());
    put(&mut text, b" ");
    put_right(&mut text, buffer.format(row.words).as_bytes());
    LineText::of(&text)
}

/// How many tracks are in use, of how many.
#[tactic(auto, using(crate::proofs::Decimals::decimal_is))]
fn tracks_line(used: u32, quota: u16) -> LineText
    ensures { result ≡ tracks_line used quota }
{
    let mut text = ArrayVec::new();
    let mut buffer = Buffer::new();
    put(&mut text, buffer.format(used).as_bytes());
    put(&mut text, b" OF ");
    put(&mut text, buffer.format(quota).as_bytes());
    put(&mut text, b" TRACKS");
    LineText::of(&text)
}
