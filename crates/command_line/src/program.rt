//! The words of the program that runs.
use crate::words::ArgList;
use ctss_types::NoMemory;
use std::env;
use std::io::ErrorKind;

/// The words behind the program's own name. Where one is no text there are none.
pub fn program_words(rt: &HostRuntime) -> Result<ArgList, NoMemory> {
    let mut words = ArgList::new(rt.alloc());
    match env::args(rt) {
        Ok(all) => {
            for word in all.skip(1) {
                words.add(word.as_str())?;
            }
            Ok(words)
        }
        Err(fault) => {
            if fault.kind() == ErrorKind::OutOfMemory {
                Err(NoMemory)
            } else {
                Ok(words)
            }
        }
    }
}
