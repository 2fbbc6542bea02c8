ghost use Rattle.std.specs.Prelude.{◌≡◌, ◌≤◌, ◌<◌, ◌^◌, ℕ, Bool, List, length, Ok, IfOk, IsErrOf};
ghost use Rattle.faults.specs.Faults.{Rose};
ghost use Rattle.ctss_types.specs.declared.file.FileBody.{FileBody};
ghost use Rattle.file_model.specs.Files.{stat, read, got, written, appended, put, renamed, deleted, moded, lasting, tracks_of};
ghost use Rattle.file_map.specs.Answers.{Answers, Leaves};
ghost use Rattle.file_map.specs.Known.{AnswersOver, known, known_of};
ghost use Rattle.file_map.specs.Listing.{listing_of};

use crate::PortFault;
use ctss_types::{FileName, Sequence, WordList};
use file_model::Stat;
use word36::Word;

/// A file in a listing.
#[derive(Clone, Copy, Debug, PartialEq, Eq)]
pub struct ListingRow {
    pub name: FileName,
    pub mode: u8,
    pub words: u64,
}

/// A row for each file, in order of making.
pub type Listing = Sequence<ListingRow>;

/// A directory. In clauses it is the list of its files in order of making, and its quota. Where its disk doesn't tell its
/// records, names, modes and lengths are right, and each word stands as 0.
///
/// A call answers what its definition says, or a fault: `Disk` only where the count of the disk's faults rose, and
/// `NoMemory` where memory lacked, which leaves the files as they were. After `Disk` nothing may be asked any more.
pub trait FilePort {
    /// The files in order of making.
    ghost files: { Self → List FileBody };

    /// How many tracks the files may take together.
    ghost quota: { Self → ℕ };

    /// Whether the disk tells its records.
    ghost tells: { Self → Bool };

    /// How often its disk has failed, up to the end of the count.
    ghost faults: { Self → ℕ };

    /// No call has failed at the disk.
    ghost Usable: { Self → Type 0 };

    /// The second stands over the same objects as the first, after calls.
    ghost Keeps: { Self → Self → Type 0 };

    /// How many words a file has, and its mode.
    fn stat(&self, name: FileName) -> Result<Stat, PortFault>
        requires usable { Usable self.now }
        ensures answer { Answers result (stat name (files self.now)) }
        ensures mode { IfOk result (λ s. s.mode ≤ 3) }
        ensures words { IfOk result (λ s. s.words < 2 ^ 32) }
        ensures disk { ¬ IsErrOf result PortFault.Disk }
        ensures memory { ¬ IsErrOf result PortFault.NoMemory };

    /// So many words of a file from a place on.
    fn read(&mut self, name: FileName, place: u64, count: u16) -> Result<WordList, PortFault>
        requires usable { Usable self.old }
        ensures answer { AnswersOver (tells self.old) (files self.old) result (read name place count) }
        ensures left { ¬ IsErrOf result PortFault.Disk → files self.new ≡ files self.old }
        ensures telling { ¬ IsErrOf result PortFault.Disk → tells self.new ≡ tells self.old }
        ensures usable { ¬ IsErrOf result PortFault.Disk → Usable self.new }
        ensures keeps { Keeps self.old self.new }
        ensures cause { IsErrOf result PortFault.Disk → Rose (faults self.old) (faults self.new) };

    /// All words of a file.
    fn get(&mut self, name: FileName) -> Result<WordList, PortFault>
        requires usable { Usable self.old }
        ensures answer { AnswersOver (tells self.old) (files self.old) result (got name) }
        ensures bound { IfOk result (λ words. length words < 2 ^ 32) }
        ensures left { ¬ IsErrOf result PortFault.Disk → files self.new ≡ files self.old }
        ensures telling { ¬ IsErrOf result PortFault.Disk → tells self.new ≡ tells self.old }
        ensures usable { ¬ IsErrOf result PortFault.Disk → Usable self.new }
        ensures keeps { Keeps self.old self.new }
        ensures cause { IsErrOf result PortFault.Disk → Rose (faults self.old) (faults self.new) };

    /// Writes words from a place on, over those that stand there and behind the end. At place 0 an absent file is made.
    fn write(&mut self, name: FileName, place: u64, words: &[Word]) -> Result<(), PortFault>
        requires usable { Usable self.old }
        ensures left { let told = written name place words.now (quota self.old) (files self.old)
            in Leaves result (known_of (tells self.old) told) (files self.old) (files self.new) }
        ensures telling { ¬ IsErrOf result PortFault.Disk → tells self.new ≡ tells self.old }
        ensures usable { ¬ IsErrOf result PortFault.Disk → Usable self.new }
        ensures keeps { Keeps self.old self.new }
        ensures cause { IsErrOf result PortFault.Disk → Rose (faults self.old) (faults self.new) };

    /// Writes words behind a file's end. An absent file is made.
    fn append(&mut self, name: FileName, words: &[Word]) -> Result<(), PortFault>
        requires usable { Usable self.old }
        ensures left { let told = appended name words.now (quota self.old) (files self.old)
            in Leaves result (known_of (tells self.old) told) (files self.old) (files self.new) }
        ensures telling { ¬ IsErrOf result PortFault.Disk → tells self.new ≡ tells self.old }
        ensures usable { ¬ IsErrOf result PortFault.Disk → Usable self.new }
        ensures keeps { Keeps self.old self.new }
        ensures cause { IsErrOf result PortFault.Disk → Rose (faults self.old) (faults self.new) };

    /// Replaces a file's content. An absent file is made.
    fn put(&mut self, name: FileName, words: &[Word]) -> Result<(), PortFault>
        requires usable { Usable self.old }
        ensures left { let told = put name words.now (quota self.old) (files self.old)
            in Leaves result (known_of (tells self.old) told) (files self.old) (files self.new) }
        ensures telling { ¬ IsErrOf result PortFault.Disk → tells self.new ≡ tells self.old }
        ensures usable { ¬ IsErrOf result PortFault.Disk → Usable self.new }
        ensures keeps { Keeps self.old self.new }
        ensures cause { IsErrOf result PortFault.Disk → Rose (faults self.old) (faults self.new) };

    /// Gives a file another name, in its place. It makes no call of the disk.
    fn rename(&mut self, name: FileName, to: FileName) -> Result<(), PortFault>
        requires usable { Usable self.old }
        ensures left { Leaves result (renamed name to (files self.old)) (files self.old) (files self.new) }
        ensures disk { ¬ IsErrOf result PortFault.Disk }
        ensures telling { tells self.new ≡ tells self.old }
        ensures usable { Usable self.new }
        ensures keeps { Keeps self.old self.new };

    /// Takes a file out. It takes no memory, and makes no call of the disk.
    fn delete(&mut self, name: FileName) -> Result<(), PortFault>
        requires usable { Usable self.old }
        ensures left { Leaves result (deleted name (files self.old)) (files self.old) (files self.new) }
        ensures disk { ¬ IsErrOf result PortFault.Disk }
        ensures memory { ¬ IsErrOf result PortFault.NoMemory }
        ensures telling { tells self.new ≡ tells self.old }
        ensures usable { Usable self.new }
        ensures keeps { Keeps self.old self.new };

    /// Gives a file another mode. It takes no memory, and makes no call of the disk.
    fn chmode(&mut self, name: FileName, mode: u8) -> Result<(), PortFault>
        requires usable { Usable self.old }
        ensures left { Leaves result (moded name mode (files self.old)) (files self.old) (files self.new) }
        ensures disk { ¬ IsErrOf result PortFault.Disk }
        ensures memory { ¬ IsErrOf result PortFault.NoMemory }
        ensures telling { tells self.new ≡ tells self.old }
        ensures usable { Usable self.new }
        ensures keeps { Keeps self.old self.new };

    /// A row for each file, in order.
    fn list(&self) -> Result<Listing, PortFault>
        requires usable { Usable self.now }
        ensures answer { Answers result (Ok (listing_of (files self.now))) }
        ensures disk { ¬ IsErrOf result PortFault.Disk };

    /// How many tracks the files may take together. It never changes.
    fn quota(&self) -> u16
        ensures { result ≡ quota self.now };

    /// How many tracks the files take together.
    fn tracks(&self) -> u32
        requires usable { Usable self.now }
        ensures count { result ≡ tracks_of (files self.now) }
        ensures most { result ≤ quota self.now };

    /// Takes the files of mode 0 out. It takes no memory, and makes no call of the disk.
    fn drop_temporary(&mut self)
        requires usable { Usable self.old }
        ensures left { files self.new ≡ lasting (files self.old) }
        ensures telling { tells self.new ≡ tells self.old }
        ensures usable { Usable self.new }
        ensures keeps { Keeps self.old self.new };

    /// The files are known as its disk tells them.
    ghost is_known: { (a : Self) → Usable a → known (tells a) (files a) ≡ files a };

    /// A port that nothing was done to stands over the same objects.
    ghost stays: { (a : Self) → Keeps a a };

    /// So does one after several calls.
    ghost goes_on: { (a b c : Self) → Keeps a b → Keeps b c → Keeps a c };

    /// The quota never changes.
    ghost same_quota: { (a b : Self) → Keeps a b → quota b ≡ quota a };

    /// The count of faults never falls.
    ghost rises: { (a b : Self) → Keeps a b → faults a ≤ faults b };
}
