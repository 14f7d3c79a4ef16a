//! The host's files. No contract says what they hold; contracts see what each read of them answered.
//! Fast: the block that files are read into is cleared once. Spares 16 KB to clear a file.
ghost use Rattle.std.specs.Prelude.{◌≡◌, ◌≤◌, ◌↔◌, ◌++◌, [], Err, IfErr, IfOk, IfSome, IsErr, IsNone, IsOk, IsSome};
ghost use Rattle.std.specs.Prelude.{Ok, OnErr, OnOk, Some, option_map, vec_len};
ghost use Rattle.std.specs.IoError.{error_kind};
ghost use Rattle.kt_list.specs.Counters.{Rises};

use kt_eval::{FileFault, Files};
use kt_history::History;
use std::io::{ErrorKind, Read};
use std::{fs, io, slice};

/// The maximum number of bytes, and of calls, for reading one file. It makes every read of a file end.
const MOST: usize = 1_073_741_824;

/// The number of bytes that one call reads.
const BLOCK: usize = 16_384;

/// The host's files, by paths from the current directory. What they answered takes no memory: only proofs read it.
#[derive(Drop)]
pub struct HostFiles<'a> {
    rt: &'a HostRuntime,
    // What calls read into. It is cleared once, since for a small file that takes longer than the read.
    block: [u8; BLOCK],
    answers: History<(String, Option<Vec<u8>>)>,
    asked: Vec<String>,
    failures: u64,
}

impl<'a> HostFiles<'a> {
    /// Files of which none was asked for yet.
    pub fn new(rt: &'a HostRuntime) -> HostFiles<'a>
        ensures answers { result.answers.items ≡ [] }
        ensures asked { result.asked.items ≡ [] }
        ensures failures { result.failures ≡ 0 }
    {
        HostFiles {
            rt,
            block: [0; BLOCK],
            answers: History::new(),
            asked: Vec::new(rt.alloc()),
            failures: 0,
        }
    }
}

/// All bytes up to the reader's end, unless they are more than the bound. Which these are is known of a reader that
/// states its bytes, as one over memory does; the host's files don't.
fn read_to_end<R: Read>(
    rt: &HostRuntime,
    block: &mut [u8; BLOCK],
    reader: &mut R,
) -> Result<Vec<u8>, FileFault>
    ensures bound { IfOk result (λ bytes. vec_len bytes ≤ MOST) }
    ensures all { IfOk result (λ bytes. IfSome (R.remaining reader.old) (λ all. bytes.items ≡ all)) }
{
    let mut bytes = Vec::new(rt.alloc());
    for _ in 0..MOST {
        let count = taken(reader.read(block))?;
        if count == 0 {
            return Ok(bytes);
        }
        if MOST.saturating_sub(bytes.len()) < count {
            return Err(FileFault::Device);
        }
        put_behind(&mut bytes, &block[..count])?;
    }
    Err(FileFault::Device)
}

/// How many bytes a call has read; one that failed is a failure of the device.
fn taken(read: io::Result<usize>) -> Result<usize, FileFault>
    ensures count { IfOk read (λ count. result ≡ Ok count) }
    ensures device { OnErr read (result ≡ Err FileFault.Device) }
{
    read.map_err(|_| FileFault::Device)
}

/// Adds a piece at the end.
fn put_behind(bytes: &mut Vec<u8>, piece: &[u8]) -> Result<(), FileFault>
    ensures put { OnOk result (bytes.new.items ≡ bytes.old.items ++ piece.now) }
    ensures refused { IfErr result (λ fault. fault ≡ FileFault.Memory) }
{
    bytes
        .extend_from_slice(piece)
        .map_err(|_| FileFault::Memory)
}

/// The result if a file can't be opened: it doesn't exist, or the device failed.
fn unopened(kind: ErrorKind) -> Result<Option<Vec<u8>>, FileFault>
    ensures absent { IsOk result ↔ (kind ≡ ErrorKind.NotFound) }
    ensures none { IfOk result IsNone }
    ensures device { IfErr result (λ e. e ≡ FileFault.Device) }
{
    match kind {
        ErrorKind::NotFound => Ok(None),
        _ => Err(FileFault::Device),
    }
}

/// What was found where a file was to be opened: all its bytes, that it doesn't exist, or that the device failed.
fn found_in<R: Read + Drop>(
    rt: &HostRuntime,
    block: &mut [u8; BLOCK],
    opened: io::Result<R>,
) -> Result<Option<Vec<u8>>, FileFault>
    ensures all { IfOk opened (λ reader. IfOk result (λ found. IfSome (R.remaining reader)
        (λ all. option_map (λ bytes. bytes.items) found ≡ Some all))) }
    ensures there { IfOk opened (λ _. IfOk result IsSome) }
    ensures absent { IfErr opened (λ error. IsOk result ↔ (error_kind error ≡ ErrorKind.NotFound)) }
    ensures none { OnErr opened (IfOk result IsNone) }
    ensures device { OnErr opened (IfErr result (λ fault. fault ≡ FileFault.Device)) }
{
    match opened {
        Ok(mut file) => Ok(Some(read_to_end(rt, block, &mut file)?)),
        Err(error) => unopened(error.kind()),
    }
}

impl<'a> HostFiles<'a> {
    ghost use Rattle.std.specs.Prelude.{◌≡◌, ◌++◌, ◌∷◌, [], IfErr, IfOk, OnErr, OnOk, map, string_bytes};

    // Notes the name and what was found, and gives it. If the name can't be kept, nothing changes.
    fn answered(
        &mut self,
        name: String,
        found: Option<Vec<u8>>,
    ) -> Result<Option<Vec<u8>>, FileFault>
        ensures gives { IfOk result (λ given. given ≡ found) }
        ensures answers { OnOk result (self.new.answers.items ≡ self.old.answers.items ++ (name, found) ∷ []) }
        ensures asked { OnOk result (map string_bytes self.new.asked.items
            ≡ map string_bytes self.old.asked.items ++ string_bytes name ∷ []) }
        ensures refused { IfErr result (λ fault. fault ≡ FileFault.Memory) }
        ensures kept { OnErr result (self.new.answers.items ≡ self.old.answers.items) }
        ensures unasked { OnErr result (map string_bytes self.new.asked.items ≡ map string_bytes self.old.asked.items) }
        ensures failures { self.new.failures ≡ self.old.failures }
    {
        let answer = (name, found);
        let answers = self.answers.with(slice::from_ref(&answer));
        let (name, found) = answer;
        if self.asked.push(name).is_err() {
            return Err(FileFault::Memory);
        }
        self.answers = answers;
        Ok(found)
    }

    // Notes the name of a file whose device failed. If the name can't be kept, nothing changes.
    fn failed(&mut self, name: String) -> Result<Option<Vec<u8>>, FileFault>
        ensures fails { IsErr result }
        ensures device { result ≡ Err FileFault.Device → (map string_bytes self.new.asked.items
            ≡ map string_bytes self.old.asked.items ++ string_bytes name ∷ [])
            × Rises self.old.failures self.new.failures }
        ensures refused { result ≡ Err FileFault.Memory → (map string_bytes self.new.asked.items
            ≡ map string_bytes self.old.asked.items) × (self.new.failures ≡ self.old.failures) }
        ensures answers { self.new.answers.items ≡ self.old.answers.items }
        ensures counts { self.old.failures ≤ self.new.failures }
    {
        if self.asked.push(name).is_err() {
            return Err(FileFault::Memory);
        }
        self.failures = self.failures.saturating_add(1);
        Err(FileFault::Device)
    }
}

impl<'a> HostFiles<'a> {
    ghost use Rattle.std.specs.Prelude.{◌≡◌, ◌≤◌, ◌++◌, ◌∷◌, [], IfOk, OnErr, option_map, string_bytes};
    ghost use Rattle.kt_eval.specs.views.files.Files.{AskedAfter, CountedAfter};
    ghost use Rattle.kati_host.specs.Seen.{files_seen};

    // Notes what came of reading the file of this name, and gives just that, unless the name can't be kept.
    fn noted(
        &mut self,
        name: String,
        read: Result<Option<Vec<u8>>, FileFault>,
    ) -> Result<Option<Vec<u8>>, FileFault>
        ensures found { IfOk result (λ found. read ≡ Ok found) }
        ensures device { result ≡ Err FileFault.Device → read ≡ Err FileFault.Device }
        ensures answers { IfOk result (λ found. (files_seen self.new).answers ≡ (files_seen self.old).answers
            ++ (string_bytes name, option_map (λ bytes. bytes.items) found) ∷ []) }
        ensures keeps { OnErr result ((files_seen self.new).answers ≡ (files_seen self.old).answers) }
        ensures asked { AskedAfter result (files_seen self.old) (files_seen self.new) (string_bytes name) }
        ensures counts { self.old.failures ≤ self.new.failures }
        ensures fails { CountedAfter result (files_seen self.old) (files_seen self.new) }
    {
        match read {
            Ok(found) => self.answered(name, found),
            Err(FileFault::Device) => self.failed(name),
            Err(FileFault::Memory) => Err(FileFault::Memory),
        }
    }
}

impl<'a> HostFiles<'a> {
    ghost use Rattle.std.specs.Prelude.{◌≡◌, ◌≤◌, ◌++◌, ◌∷◌, [], IfErr, IfOk, IfSome, IsNone, IsSome, OnErr, Some};
    ghost use Rattle.std.specs.Prelude.{option_map, string_bytes};
    ghost use Rattle.std.specs.IoError.{error_kind};
    ghost use Rattle.kt_eval.specs.views.files.Files.{AskedAfter, CountedAfter};
    ghost use Rattle.kati_host.specs.Seen.{files_seen};

    // Notes what is found where a file was to be opened, under this name, and gives just that, unless the name can't be
    // kept. That the file that was opened has this name is said by no clause.
    fn read_noted<R: Read + Drop>(
        &mut self,
        name: String,
        opened: io::Result<R>,
    ) -> Result<Option<Vec<u8>>, FileFault>
        ensures all { IfOk opened (λ reader. IfOk result (λ found. IfSome (R.remaining reader)
            (λ all. option_map (λ bytes. bytes.items) found ≡ Some all))) }
        ensures there { IfOk opened (λ _. IfOk result IsSome) }
        ensures absent { IfErr opened (λ error. IfOk result (λ _. error_kind error ≡ ErrorKind.NotFound)) }
        ensures none { OnErr opened (IfOk result IsNone) }
        ensures answers { IfOk result (λ found. (files_seen self.new).answers ≡ (files_seen self.old).answers
            ++ (string_bytes name, option_map (λ bytes. bytes.items) found) ∷ []) }
        ensures keeps { OnErr result ((files_seen self.new).answers ≡ (files_seen self.old).answers) }
        ensures asked { AskedAfter result (files_seen self.old) (files_seen self.new) (string_bytes name) }
        ensures counts { self.old.failures ≤ self.new.failures }
        ensures fails { CountedAfter result (files_seen self.old) (files_seen self.new) }
    {
        let read = found_in(self.rt, &mut self.block, opened);
        self.noted(name, read)
    }
}

impl<'a> Files for HostFiles<'a> {
    ghost use Rattle.kati_host.specs.Seen.{files_seen};

    ghost seen = { files_seen };

    fn read(&mut self, name: &str) -> Result<Option<Vec<u8>>, FileFault> {
        let copy = match name.to_string(self.rt.alloc()) {
            Ok(copy) => copy,
            Err(_) => return Err(FileFault::Memory),
        };
        self.read_noted(copy, fs::open(self.rt, name))
    }

    fn asked(&self) -> &[String] {
        self.asked.as_slice()
    }

    fn failures(&self) -> u64 {
        self.failures
    }
}
