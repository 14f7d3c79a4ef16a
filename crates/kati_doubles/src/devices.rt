//! Words, files and outputs over memory.
use kt_eval::MemFiles;
use kt_ninja::MemSink;
use std::alloc::{AllocError, Global};

/// The words of a command line: the program's name, and those after it.
pub fn words_of(alloc: Global, name: &str, further: &[&str]) -> Result<Vec<String>, AllocError> {
    let mut words = Vec::new(alloc);
    words.push(name.to_string(alloc)?)?;
    for word in further {
        words.push(word.to_string(alloc)?)?;
    }
    Ok(words)
}

/// The files of these names and texts, of which the nth read fails; with 0 none does.
pub fn files_of(alloc: Global, files: &[(&str, &[u8])], nth: u64) -> Result<MemFiles, AllocError> {
    let mut pairs = Vec::new(alloc);
    for (name, text) in files {
        pairs.push((name.to_string(alloc)?, Vec::from_slice(alloc, text)?))?;
    }
    Ok(MemFiles::new(alloc, pairs, nth))
}

/// An output with room for a given number of bytes, which takes up to a given number in a call.
pub fn sink_of(alloc: Global, (room, step): (usize, usize)) -> Result<MemSink, AllocError> {
    MemSink::new(alloc, room, step)
}
