//! Files by name, in order of making.
ghost use Rattle.std.specs.Prelude.{◌≡◌, ◌++◌, ◌∷◌, [], ◌≤◌, ◌<◌, ◌^◌, Some, None, filter, not, length, MatchOption, IfOk, OnOk, OnErr, nat_eq, nat_le};
ghost use Rattle.ctss_types.specs.declared.file.FileBody.{FileBody};
ghost use Rattle.file_model.specs.Files.{file_named, is_named, with_change, with_new, overwritten, lasting, tracks_of, tracks_of_words};
ghost use Rattle.file_map.specs.Directory.{NamesDiffer};
ghost use Rattle.file_map.specs.Listing.{listing_of};
ghost use Rattle.file_map.specs.Table.{body_of};

use crate::words::{copy_of, overwrite, tracks_of_words};
use crate::{Listing, ListingRow};
use ctss_types::{FileBody, FileList, FileName, NoMemory, Sequence};
use indexmap::IndexMap;
use std::alloc::Global;
use std::marker::Model;
use word36::Word;

/// A file without its name.
#[derive(Debug, Drop)]
pub(crate) struct StoredFile {
    pub(crate) mode: u8,
    pub(crate) words: Vec<Word>,
}

/// Files that are found by name, in order of making. In clauses it is the list of the files.
#[derive(Drop)]
pub(crate) struct FileTable {
    by_name: IndexMap<FileName, StoredFile>,
}

impl Model for FileTable {
    ghost use Rattle.std.specs.Prelude.{List};
    ghost use Rattle.ctss_types.specs.declared.file.FileBody.{FileBody};
    ghost use Rattle.file_map.specs.Table.{files_of};

    ghost Value = { List FileBody };

    ghost view = { λ t. files_of t.by_name.entries };
}

impl StoredFile {
    /// Whether no call may change the file's words or take it out.
    pub(crate) fn is_read_only(&self) -> bool
        ensures { result ≡ nat_le 2 self.now.mode }
    {
        self.mode >= 2
    }

    /// How many words the file has.
    pub(crate) fn len(&self) -> usize
        ensures { result ≡ length self.now.words.items }
    {
        self.words.len()
    }

    /// How many tracks the file takes.
    pub(crate) fn tracks(&self) -> u64
        ensures value { result ≡ tracks_of_words (length self.now.words.items) }
        ensures small { result < 2 ^ 57 }
    {
        tracks_of_words(self.len())
    }
}

impl FileTable {
    /// A table of no file.
    pub(crate) fn new(alloc: Global) -> FileTable
        ensures { result ≡ [] }
    {
        FileTable {
            by_name: IndexMap::new(alloc),
        }
    }

    /// A table of these files, in their order.
    pub(crate) fn with_all(alloc: Global, files: &[FileBody]) -> Result<FileTable, NoMemory>
        requires { NamesDiffer files.now }
        ensures { IfOk result (λ table. table ≡ files.now) }
    {
        let mut table = FileTable::new(alloc);
        for file in files {
            let words = copy_of(alloc, file.words.as_slice())?;
            table.add(file.name, file.mode, words)?;
        }
        Ok(table)
    }

    /// The allocator of the table.
    pub(crate) fn alloc(&self) -> Global {
        *self.by_name.allocator()
    }

    /// The file of a name.
    pub(crate) fn get(&self, name: FileName) -> Option<&StoredFile>
        ensures file { MatchOption result (file_named name self.now ≡ None) (λ f. file_named name self.now ≡ Some
            (body_of (name, f.now))) }
        ensures differ { NamesDiffer self.now }
    {
        // `len` is called for its clause that the names differ.
        let _len = self.by_name.len();
        self.by_name.get(&name)
    }

    /// A new file behind the others. Where memory lacks, all is as before.
    pub(crate) fn add(&mut self, name: FileName, mode: u8, words: Vec<Word>) -> Result<(), NoMemory>
        requires { file_named name self.old ≡ None }
        ensures ok { OnOk result (self.new ≡ self.old ++ record { name = name; mode = mode; words = words.items } ∷
            []) }
        ensures err { OnErr result (self.new ≡ self.old) }
    {
        self.by_name.insert(name, StoredFile { mode, words })?;
        Ok(())
    }

    /// Gives a file another mode, if there is one of that name.
    pub(crate) fn set_mode(&mut self, name: FileName, mode: u8)
        ensures { self.new ≡ with_change name (λ f. record f { mode = mode }) self.old }
    {
        if let Some(file) = self.by_name.get_mut(&name) {
            file.mode = mode;
        }
    }

    /// Gives a file other words, if there is one of that name.
    pub(crate) fn set_words(&mut self, name: FileName, words: Vec<Word>)
        ensures { self.new ≡ with_change name (λ f. record f { words = words.items }) self.old }
    {
        if let Some(file) = self.by_name.get_mut(&name) {
            file.words = words;
        }
    }

    /// Writes words into a file from a place on. Where memory lacks, all is as before.
    pub(crate) fn overwrite(
        &mut self,
        name: FileName,
        place: usize,
        words: &[Word],
    ) -> Result<(), NoMemory>
        requires { (f : FileBody) → file_named name self.old ≡ Some f → place ≤ length f.words }
        ensures ok { OnOk result (self.new ≡ with_change name (λ f. record f {
          words = overwritten place words.now
              f.words;
        }) self.old) }
        ensures err { OnErr result (self.new ≡ self.old) }
    {
        match self.by_name.get_mut(&name) {
            Some(file) => overwrite(&mut file.words, place, words),
            None => Ok(()),
        }
    }

    /// Gives a file another name, in its place. Where memory lacks, all is as before.
    pub(crate) fn rename(&mut self, name: FileName, to: FileName) -> Result<(), NoMemory>
        requires { file_named to self.old ≡ None }
        ensures ok { OnOk result (self.new ≡ with_change name (λ f. record f { name = to }) self.old) }
        ensures err { OnErr result (self.new ≡ self.old) }
    {
        self.by_name.reserve(1)?;
        if let Some((at, _, file)) = self.by_name.shift_remove_full(&name) {
            self.by_name.shift_insert(at, to, file).unwrap();
        }
        Ok(())
    }

    /// Takes out a file, if there is one of that name.
    pub(crate) fn remove(&mut self, name: FileName)
        ensures { self.new ≡ filter (λ f. not (is_named name f)) self.old }
    {
        // `len` is called for its clause that the names differ.
        let _len = self.by_name.len();
        self.by_name.shift_remove(&name);
    }

    /// Takes out the files of mode 0.
    pub(crate) fn drop_temporary(&mut self)
        ensures { self.new ≡ lasting self.old }
    {
        self.by_name.retain(
            |_name: &FileName, file: &mut StoredFile| -> bool
                ensures { (result ≡ not (nat_eq file.old.mode 0)) × (file.new ≡ file.old) }
            { file.mode != 0 },
        );
    }

    /// How many tracks the files take together.
    pub(crate) fn tracks(&self) -> u32
        requires { tracks_of self.now < 2 ^ 32 }
        ensures { result ≡ tracks_of self.now }
    {
        let mut tracks = 0;
        for file in self.by_name.values() {
            tracks += file.tracks() as u32;
        }
        tracks
    }

    /// A row for each file.
    pub(crate) fn list(&self) -> Result<Listing, NoMemory>
        ensures { IfOk result (λ rows. rows ≡ listing_of self.now) }
    {
        let mut rows = Sequence::new(self.alloc());
        for (name, file) in self.by_name.iter() {
            rows.push(ListingRow {
                name: *name,
                mode: file.mode,
                words: file.len() as u64,
            })?;
        }
        Ok(rows)
    }

    /// The files as a list.
    pub(crate) fn into_list(self) -> Result<FileList, NoMemory>
        ensures { IfOk result (λ files. files ≡ self) }
    {
        let alloc = self.alloc();
        let files: Vec<FileBody> = self
            .by_name
            .into_iter()
            .map(|(name, file)| FileBody {
                name,
                mode: file.mode,
                words: Sequence::from_vec(file.words),
            })
            .collect(alloc)?;
        Ok(Sequence::from_vec(files))
    }
}
