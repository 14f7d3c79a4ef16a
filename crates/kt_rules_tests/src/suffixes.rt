//! Suffixes in names, beside a plain loop over them.
use crate::asking::{Question, add, answers};
use crate::sameness::same;
use kt_list::Names;
use kt_rules::Book;
use kt_testing::{Random, put};
use std::alloc::Global;
use std::test::Fail;

const BYTES: &[&[u8]] = &[b".", b"a", b"b"];

/// How many suffixes books have at most: few are compared one by one, and many are looked up.
const COUNTS: [usize; 2] = [8, 40];

#[test]
fn finds_the_suffix_of_a_name(rt: HostRuntime) -> Result<(), Fail> {
    answers(
        &rt,
        rt.alloc(),
        &[
            (b"", Question::SuffixOf(b"x.o"), b".o"),
            (b"", Question::SuffixOf(b".cpp"), b".cpp"),
            (b"", Question::SuffixOf(b"cpp"), b"none"),
            (b"", Question::SuffixOf(b""), b"none"),
            (b".SUFFIXES:", Question::SuffixOf(b"x.o"), b"none"),
            (b".SUFFIXES: b.o", Question::SuffixOf(b"ab.o"), b".o"),
            (
                b".SUFFIXES:\n.SUFFIXES: b.o .o",
                Question::SuffixOf(b"ab.o"),
                b"b.o",
            ),
            (
                b".SUFFIXES: .a-suffix-of-more-than-thirty-bytes",
                Question::SuffixOf(b"x.a-suffix-of-more-than-thirty-bytes"),
                b".a-suffix-of-more-than-thirty-bytes",
            ),
            // What stood before the suffixes were taken away isn't found.
            (
                b".SUFFIXES:\n.SUFFIXES: .x",
                Question::SuffixOf(b"x.cpp"),
                b"none",
            ),
        ],
    )?;
    Ok(())
}

#[test]
fn agrees_with_a_plain_loop(rt: HostRuntime) -> Result<(), Fail> {
    let alloc = rt.alloc();
    let mut random = Random::new(1);
    for count in COUNTS {
        for _ in 0..40 {
            let mut book = Book::new(alloc)?;
            assert!(rt; takes_suffixes(alloc, &mut book, &mut random, count));
            for _ in 0..20 {
                let name = random_name(alloc, b"", &mut random);
                let expected = plain_suffix(book.suffixes(), name.as_slice());
                same(
                    &rt,
                    name.as_slice(),
                    book.suffix_of(name.as_slice()),
                    expected,
                );
            }
        }
    }
    Ok(())
}

/// Whether a book takes so many suffixes in the place of the usual ones.
fn takes_suffixes(alloc: Global, book: &mut Book, random: &mut Random, count: usize) -> bool {
    let mut is_taken = add(alloc, book, b".SUFFIXES:", 1).is_ok();
    for _ in 0..count {
        let line = random_name(alloc, b".SUFFIXES: ", random);
        is_taken = is_taken && add(alloc, book, line.as_slice(), 2).is_ok();
    }
    is_taken
}

/// A name of one to four bytes after a text.
fn random_name(alloc: Global, before: &[u8], random: &mut Random) -> Vec<u8> {
    let mut name = Vec::new(alloc);
    put(&mut name, before);
    put(&mut name, random.piece(BYTES));
    put(&mut name, random.text(alloc, BYTES, 4).as_slice());
    name
}

fn plain_suffix<'s>(suffixes: &'s Names, name: &[u8]) -> Option<&'s [u8]> {
    for number in 0..suffixes.len() {
        let suffix = suffixes.name_at(number);
        if name.ends_with(suffix) {
            return Some(suffix);
        }
    }
    None
}
