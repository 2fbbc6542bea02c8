//! A directory in memory.
ghost use Rattle.std.specs.Prelude.{◌≡◌, ◌+◌, ◌-◌, ◌≤◌, ◌<◌, ◌^◌, [], None, IfOk, MatchOption, IsErrOf};
ghost use Rattle.std.specs.List.{All};
ghost use Rattle.ctss_types.specs.declared.file.FileBody.{FileBody};
ghost use Rattle.file_model.specs.Files.{file_named, with_new, if_they_fit, tracks_of};
ghost use Rattle.file_map.specs.Answers.{Leaves};
ghost use Rattle.file_map.specs.Directory.{NamesDiffer};

use crate::table::FileTable;
use crate::words::{copy_of, tracks_of_words};
use crate::{FilePort, Listing, PortFault};
use ctss_types::{FileBody, FileList, FileName, NoMemory, Refusal, Sequence, WordList};
use file_model::Stat;
use std::alloc::Global;
use std::marker::Model;
use word36::Word;

/// A directory whose files lie in memory. In clauses it is the list of its files and its quota.
///
/// It counts the tracks in use, so that no call goes over all files to see whether they keep the quota.
#[derive(Drop)]
pub struct Files {
    table: FileTable,
    quota: u16,
    used: u32,
}

impl Model for Files {
    ghost use Rattle.file_map.specs.Directory.{Directory, IsSound};

    ghost Value = { Directory };

    ghost view = { λ d. record { files = d.table; quota = d.quota } };

    ghost invariant = { λ d. IsSound d.table d.quota d.used };
}

/// Tracks in use after `after` of them came for `before`, if they keep the quota.
fn used_after(used: u32, quota: u16, before: u64, after: u64) -> Option<u32>
    requires before { before ≤ used }
    requires after { after < 2 ^ 60 }
    ensures { MatchOption result (quota + before < used + after) (λ now. (now + before ≡ used + after) × (now ≤
        quota)) }
{
    let now = u64::from(used) - before + after;
    if now <= u64::from(quota) {
        Some(now as u32)
    } else {
        None
    }
}

impl Files {
    /// A directory without files.
    pub fn new(alloc: Global, quota: u16) -> Files
        ensures { result ≡ record { files = []; quota = quota } }
    {
        Files {
            table: FileTable::new(alloc),
            quota,
            used: 0,
        }
    }

    /// A directory of these files, in their order.
    pub fn with_first(alloc: Global, quota: u16, files: &[FileBody]) -> Result<Files, NoMemory>
        requires differ { NamesDiffer files.now }
        requires few { tracks_of files.now ≤ quota }
        requires modes { All (λ (f : FileBody). f.mode ≤ 3) files.now }
        ensures { IfOk result (λ d. d ≡ record { files = files.now; quota = quota }) }
    {
        let table = FileTable::with_all(alloc, files)?;
        let used = table.tracks();
        Ok(Files { table, quota, used })
    }

    /// The files in order of making.
    pub fn into_list(self) -> Result<FileList, NoMemory>
        ensures { IfOk result (λ files. files ≡ self.files) }
    {
        let Files { table, .. } = self;
        table.into_list()
    }

    /// Makes a file of mode 1, whose name isn't there, behind the others.
    fn make(&mut self, name: FileName, words: &[Word]) -> Result<(), PortFault>
        requires { file_named name self.old.files ≡ None }
        ensures left { let told = if_they_fit self.old.quota (with_new name words.now self.old.files)
            in Leaves result told self.old.files self.new.files }
        ensures same_quota { self.new.quota ≡ self.old.quota }
        ensures disk { ¬ IsErrOf result PortFault.Disk }
    {
        let tracks = tracks_of_words(words.len());
        let Some(used) = used_after(self.used, self.quota, 0, tracks) else {
            return Err(PortFault::Refused(Refusal::Quota));
        };
        let words = copy_of(self.table.alloc(), words)?;
        self.table.add(name, 1, words)?;
        self.used = used;
        Ok(())
    }
}

impl FilePort for Files {
    ghost use Rattle.std.specs.Prelude.{◌≡◌, [], true, refl};
    ghost use Rattle.std.proofs.Common.{◌∙◌, lit≤};
    ghost use Rattle.file_map.specs.Known.{whole_is_known};

    ghost files = { λ d. d.files };

    ghost quota = { λ d. d.quota };

    ghost tells = { λ _. true };

    ghost faults = { λ _. 0 };

    ghost Usable = { λ _. Unit {0} };

    ghost Keeps = { λ a b. b.quota ≡ a.quota };

    fn stat(&self, name: FileName) -> Result<Stat, PortFault> {
        // The quota is read for its range, which bounds a file's words.
        let _quota = self.quota;
        match self.table.get(name) {
            Some(file) => Ok(Stat {
                words: file.len() as u64,
                mode: file.mode,
            }),
            None => Err(PortFault::Refused(Refusal::NoFile)),
        }
    }

    fn read(&mut self, name: FileName, place: u64, count: u16) -> Result<WordList, PortFault> {
        let Some(file) = self.table.get(name) else {
            return Err(PortFault::Refused(Refusal::NoFile));
        };
        let len = file.len() as u64;
        if place > len || u64::from(count) > len - place {
            return Err(PortFault::Refused(Refusal::PastEnd));
        }
        let from = place as usize;
        let words = &file.words[from..from + count as usize];
        let copy = copy_of(self.table.alloc(), words)?;
        Ok(Sequence::from_vec(copy))
    }

    fn get(&mut self, name: FileName) -> Result<WordList, PortFault> {
        // The quota is read for its range, which bounds a file's words.
        let _quota = self.quota;
        let Some(file) = self.table.get(name) else {
            return Err(PortFault::Refused(Refusal::NoFile));
        };
        let copy = copy_of(self.table.alloc(), &file.words)?;
        Ok(Sequence::from_vec(copy))
    }

    fn write(&mut self, name: FileName, place: u64, words: &[Word]) -> Result<(), PortFault> {
        let Some(file) = self.table.get(name) else {
            if place == 0 {
                return self.make(name, words);
            }
            return Err(PortFault::Refused(Refusal::NoFile));
        };
        if file.is_read_only() {
            return Err(PortFault::Refused(Refusal::ReadOnly));
        }
        if place > file.len() as u64 {
            return Err(PortFault::Refused(Refusal::PastEnd));
        }
        let place = place as usize;
        let tracks = tracks_of_words(file.len().max(place + words.len()));
        let Some(used) = used_after(self.used, self.quota, file.tracks(), tracks) else {
            return Err(PortFault::Refused(Refusal::Quota));
        };
        self.table.overwrite(name, place, words)?;
        self.used = used;
        Ok(())
    }

    fn append(&mut self, name: FileName, words: &[Word]) -> Result<(), PortFault> {
        let end = match self.table.get(name) {
            Some(file) => file.len() as u64,
            None => 0,
        };
        self.write(name, end, words)
    }

    fn put(&mut self, name: FileName, words: &[Word]) -> Result<(), PortFault> {
        let Some(file) = self.table.get(name) else {
            return self.make(name, words);
        };
        if file.is_read_only() {
            return Err(PortFault::Refused(Refusal::ReadOnly));
        }
        let after = tracks_of_words(words.len());
        let Some(used) = used_after(self.used, self.quota, file.tracks(), after) else {
            return Err(PortFault::Refused(Refusal::Quota));
        };
        let words = copy_of(self.table.alloc(), words)?;
        self.table.set_words(name, words);
        self.used = used;
        Ok(())
    }

    fn rename(&mut self, name: FileName, to: FileName) -> Result<(), PortFault> {
        let Some(file) = self.table.get(name) else {
            return Err(PortFault::Refused(Refusal::NoFile));
        };
        if file.is_read_only() {
            return Err(PortFault::Refused(Refusal::ReadOnly));
        }
        if to == name {
            return Ok(());
        }
        if self.table.get(to).is_some() {
            return Err(PortFault::Refused(Refusal::NameUsed));
        }
        self.table.rename(name, to)?;
        Ok(())
    }

    fn delete(&mut self, name: FileName) -> Result<(), PortFault> {
        let Some(gone) = self.table.get(name) else {
            return Err(PortFault::Refused(Refusal::NoFile));
        };
        if gone.is_read_only() {
            return Err(PortFault::Refused(Refusal::ReadOnly));
        }
        let tracks = gone.tracks() as u32;
        self.table.remove(name);
        self.used -= tracks;
        Ok(())
    }

    fn chmode(&mut self, name: FileName, mode: u8) -> Result<(), PortFault> {
        let Some(file) = self.table.get(name) else {
            return Err(PortFault::Refused(Refusal::NoFile));
        };
        if file.mode == 3 {
            return Err(PortFault::Refused(Refusal::ReadOnly));
        }
        if mode > 3 {
            return Err(PortFault::Refused(Refusal::BadMode));
        }
        self.table.set_mode(name, mode);
        Ok(())
    }

    fn list(&self) -> Result<Listing, PortFault> {
        Ok(self.table.list()?)
    }

    fn quota(&self) -> u16 {
        self.quota
    }

    fn tracks(&self) -> u32 {
        self.used
    }

    fn drop_temporary(&mut self) {
        self.table.drop_temporary();
        self.used = self.table.tracks();
    }

    ghost is_known = { λ a usable. whole_is_known a.files };

    ghost stays = { λ a. refl };

    ghost goes_on = { λ a b c one two. two ∙ one };

    ghost same_quota = { λ a b keeps. keeps };

    ghost rises = { λ a b keeps. lit≤ tt };
}
