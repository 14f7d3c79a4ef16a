//! The files that makefiles are read from.
//!
//! Takes a name, and returns the bytes of the file, or that there is none, or that its device failed. The names that
//! were asked for and the number of failures can be read at any time.
ghost use Rattle.std.specs.Prelude.{◌≡◌, ◌∷◌, ◌++◌, [], option_map, map, string_bytes, IfOk, OnErr, ◌≤◌};
ghost use Rattle.kt_eval.specs.views.files.Files.{AskedAfter, CountedAfter};
ghost use Rattle.kt_eval.specs.files.Files.{FilesSeen};

mod including;
mod memory;

pub use including::LARGEST_FILE;
pub use memory::MemFiles;
use thiserror::Error;

/// A file couldn't be read.
#[derive(Debug, Drop, Clone, Copy, PartialEq, Eq, Error)]
pub enum FileFault {
    /// The device failed. A missing file is no failure.
    #[error("cannot read")]
    Device,
    #[error("out of memory")]
    Memory,
}

/// Files by name, and a record of what was asked for.
pub trait Files {
    /// What contracts see of them.
    ghost seen: { Self → FilesSeen };

    /// The bytes of the file, or `None` if there is no file with this name. The name counts as asked for, unless memory
    /// ran out. A failure of the device is counted, and nothing else is.
    fn read(&mut self, name: &str) -> Result<Option<Vec<u8>>, FileFault>
        ensures answers { IfOk result (λ found. (seen self.new).answers
            ≡ (seen self.old).answers ++ (name.now, option_map (λ v. v.items) found) ∷ []) }
        ensures keeps { OnErr result ((seen self.new).answers ≡ (seen self.old).answers) }
        ensures asked { AskedAfter result (seen self.old) (seen self.new) name.now }
        ensures counts { (seen self.old).failed ≤ (seen self.new).failed }
        ensures fails { CountedAfter result (seen self.old) (seen self.new) };

    /// The names that were asked for, in order.
    fn asked(&self) -> &[String]
        ensures { map string_bytes result.now ≡ (seen self.now).names };

    /// The number of reads that failed because of the device.
    fn failures(&self) -> u64
        ensures { result ≡ (seen self.now).failed };
}
