//! Files in memory, for tests.
ghost use Rattle.std.specs.Prelude.{◌≡◌, Some, map, option_map, string_bytes, IfOk};
ghost use Rattle.kt_eval.specs.files.Files.{look};

use crate::files::{FileFault, Files};
use std::alloc::{AllocError, Global};
use std::marker::Model;

/// Files in memory, of which one read may fail.
#[derive(Drop)]
pub struct MemFiles {
    alloc: Global,
    pairs: Vec<(String, Vec<u8>)>,
    asked: Vec<String>,
    answered: Vec<String>,
    nth: u64,
    reads: u64,
    failures: u64,
}

impl Model for MemFiles {
    ghost use Rattle.std.specs.Prelude.{map, string_bytes};
    ghost use Rattle.kt_eval.specs.views.files.Memory.{MemFiles};

    ghost Value = { MemFiles };

    ghost view = { λ s. record {
      store = map (λ p. (string_bytes p.0, p.1.items)) s.pairs.items;
      answered = map string_bytes s.answered.items;
      asked = map string_bytes s.asked.items;
      nth = s.nth;
      reads = s.reads;
      failures = s.failures;
    } };
}

impl MemFiles {
    ghost use Rattle.std.specs.Prelude.{◌≡◌, [], map, string_bytes};

    /// The bytes of the file with each name; of two pairs with one name the first counts. The nth read, counted from 1,
    /// fails; with 0 none does.
    pub fn new(alloc: Global, pairs: Vec<(String, Vec<u8>)>, nth: u64) -> MemFiles
        ensures { result ≡ record {
          store = map (λ p. (string_bytes p.0, p.1.items)) pairs.items;
          answered = [];
          asked = [];
          nth = nth;
          reads = 0;
          failures = 0;
        } }
    {
        MemFiles {
            alloc,
            pairs,
            asked: Vec::new(alloc),
            answered: Vec::new(alloc),
            nth,
            reads: 0,
            failures: 0,
        }
    }
}

fn find(
    alloc: Global,
    pairs: &[(String, Vec<u8>)],
    name: &str,
) -> Result<Option<Vec<u8>>, AllocError>
    ensures { IfOk result (λ found. option_map (λ v. v.items) found
        ≡ look (map (λ p. (string_bytes p.0, p.1.items)) pairs.now) name.now) }
{
    for (other, bytes) in pairs {
        if other.as_str() == name {
            return Ok(Some(bytes.as_slice().to_vec(alloc)?));
        }
    }
    Ok(None)
}

impl Files for MemFiles {
    ghost use Rattle.std.specs.Prelude.{◌≡◌, ◌≤◌, ◌∷◌, ◌++◌, [], option_map, true, false, IfOk, IfErr, OnOk, OnErr};
    ghost use Rattle.kt_eval.specs.views.files.Files.{AskedAfter, CountedAfter, IsDevice, IsMemory};
    ghost use Rattle.kt_eval.specs.files.Files.{look};
    ghost use Rattle.kt_eval.specs.views.files.Memory.{after_read, fails_next, seen_of};

    ghost seen = { seen_of };

    fn read(&mut self, name: &str) -> Result<Option<Vec<u8>>, FileFault>
        ensures answers { IfOk result (λ found. (seen_of self.new).answers
            ≡ (seen_of self.old).answers ++ (name.now, option_map (λ v. v.items) found) ∷ []) }
        ensures keeps { OnErr result ((seen_of self.new).answers ≡ (seen_of self.old).answers) }
        ensures asked { AskedAfter result (seen_of self.old) (seen_of self.new) name.now }
        ensures counts { (seen_of self.old).failed ≤ (seen_of self.new).failed }
        ensures fails { CountedAfter result (seen_of self.old) (seen_of self.new) }

        ensures found { IfOk result (λ found. option_map (λ v. v.items) found ≡ look self.old.store name.now) }

        // The device fails at the nth read and at no other.
        ensures device { IfErr result (λ e. IsDevice e → fails_next self.old ≡ true) }
        ensures reads { OnOk result (fails_next self.old ≡ false) }
        ensures after { OnOk result (self.new ≡ after_read self.old name.now) }
        ensures after_failure { IfErr result (λ e. IsDevice e → self.new ≡ after_read self.old name.now) }
        ensures after_refusal { IfErr result (λ e. IsMemory e → self.new ≡ self.old) }
    {
        let Ok(copy) = name.to_string(self.alloc) else {
            return Err(FileFault::Memory);
        };
        let Ok(again) = name.to_string(self.alloc) else {
            return Err(FileFault::Memory);
        };
        let Ok(found) = find(self.alloc, self.pairs.as_slice(), name) else {
            return Err(FileFault::Memory);
        };
        if self.asked.push(copy).is_err() {
            return Err(FileFault::Memory);
        }
        let reads = self.reads.saturating_add(1);
        if reads == self.nth {
            self.reads = reads;
            self.failures = self.failures.saturating_add(1);
            return Err(FileFault::Device);
        }
        if self.answered.push(again).is_err() {
            let _ = self.asked.pop();
            return Err(FileFault::Memory);
        }
        self.reads = reads;
        Ok(found)
    }

    fn asked(&self) -> &[String] {
        self.asked.as_slice()
    }

    fn failures(&self) -> u64 {
        self.failures
    }
}
