//! Reads that fail, and readings after a refusal.
use super::{put_asked, read};
use crate::sameness::same;
use kati_doubles::{files_of, put_messages, put_stop};
use kt_eval::{Files, Machine, Macros, MemFiles, Stop};
use kt_testing::put;
use std::alloc::{AllocError, Global};
use std::process::Abort;
use std::test::Fail;

/// How a reading of `m` ends, and all names asked for so far.
fn put_reading(out: &mut Vec<u8>, machine: &mut Machine, files: &mut MemFiles) {
    let outcome = read(machine, files, &["m"]);
    put_outcome(out, &outcome);
    put_asked(out, files.asked());
}

fn put_outcome(out: &mut Vec<u8>, outcome: &Result<(), Stop>) {
    match outcome {
        Ok(()) => put(out, b"read"),
        Err(stop) => put_stop(out, stop),
    }
    put(out, b"\n");
}

/// How two readings end of which the nth read fails, the names asked for until then, and then the messages.
fn told_twice(alloc: Global, named: &[(&str, &[u8])], nth: u64) -> Result<Vec<u8>, AllocError> {
    let files = files_of(alloc, named, nth)?;
    let machine = Machine::new(alloc, Macros::new(alloc), 100)?;
    Ok(told_of_two(alloc, machine, files))
}

fn told_of_two(alloc: Global, machine: Machine, files: MemFiles) -> Vec<u8> {
    let (mut machine, mut files) = (machine, files);
    let mut out = Vec::new(alloc);
    put_reading(&mut out, &mut machine, &mut files);
    put_reading(&mut out, &mut machine, &mut files);
    let reading = machine.finish();
    put_messages(&mut out, reading.messages.as_slice());
    out
}

fn fails(
    rt: &impl Abort,
    alloc: Global,
    named: &[(&str, &[u8])],
    rows: &[(u64, &str)],
) -> Result<(), AllocError> {
    for (nth, expected) in rows {
        let found = told_twice(alloc, named, *nth)?;
        same(rt, nth, found.as_slice(), expected.as_bytes());
    }
    Ok(())
}

#[test]
fn repeats_the_refusal_of_a_read(rt: HostRuntime) -> Result<(), Fail> {
    let alloc = rt.alloc();
    fails(
        &rt,
        alloc,
        &[
            (
                "m",
                b"$(info one)\ninclude a.mk\n$(info two)\ninclude a.mk\n",
            ),
            ("a.mk", b""),
        ],
        &[
            (1, "cannot read m\n< m\ncannot read m\n< m\n"),
            (
                2,
                "cannot read a.mk\n< m\n< a.mk\ncannot read a.mk\n< m\n< a.mk\none\n",
            ),
            (
                3,
                "cannot read a.mk\n< m\n< a.mk\n< a.mk\ncannot read a.mk\n< m\n< a.mk\n< a.mk\none\ntwo\n",
            ),
        ],
    )?;
    fails(
        &rt,
        alloc,
        &[("m", b"-include a.mk\n$(info x)\n")],
        &[(
            2,
            "cannot read a.mk\n< m\n< a.mk\ncannot read a.mk\n< m\n< a.mk\n",
        )],
    )?;
    fails(
        &rt,
        alloc,
        &[("m", b"$(info x)\nifdef X\n")],
        &[(
            0,
            "m:2: *** missing endif [E12]\n< m\nm:2: *** missing endif [E12]\n< m\nx\n",
        )],
    )?;
    Ok(())
}
