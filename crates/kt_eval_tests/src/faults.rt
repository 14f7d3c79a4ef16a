//! Faults, and the lines that tell of them.
use crate::sameness::same;
use kt_eval::{Automatic, Fault, NoAutomatic};
use kt_rules::{FaultKind, Place};
use kt_rules_doubles::place_of;
use std::alloc::{AllocError, Global};
use std::test::Fail;

/// A kind, a name, and a line of the file `m` or 0; number, words, and what is reported.
type Row = (
    FaultKind,
    &'static [u8],
    u64,
    u8,
    &'static [u8],
    &'static [u8],
);

const ROWS: [Row; 4] = [
    (
        FaultKind::NoFile,
        b"a.mk",
        3,
        4,
        b"no file a.mk",
        b"m:3: *** no file a.mk [E04]",
    ),
    (
        FaultKind::NoTargets,
        b"",
        0,
        26,
        b"no targets",
        b"kati: *** no targets [E26]",
    ),
    (
        FaultKind::ErrorCalled,
        b"no \xff",
        12,
        19,
        b"no \xff",
        b"m:12: *** no \xff [E19]",
    ),
    (
        FaultKind::ErrorCalled,
        b"",
        65_536,
        19,
        b"",
        b"m:65536: ***  [E19]",
    ),
];

/// A line of the file `m`; there is no line 0.
fn place(alloc: Global, line: u64) -> Result<Option<Place>, AllocError> {
    if line == 0 {
        return Ok(None);
    }
    Ok(Some(place_of(alloc, line)?))
}

#[test]
fn tells_of_faults(rt: HostRuntime) -> Result<(), Fail> {
    for (kind, name, line, number, words, told) in ROWS {
        let fault = Fault::new(rt.alloc(), kind, name, place(rt.alloc(), line)?)?;
        same(&rt, line, fault.number, number);
        same(&rt, line, fault.words.as_slice(), words);
        let mut text = Vec::new(rt.alloc());
        fault.append_to(&mut text)?;
        same(&rt, line, text.as_slice(), told);
    }
    Ok(())
}

#[test]
fn outside_recipes_no_macro_is_automatic(rt: HostRuntime) -> Result<(), Fail> {
    for name in [b"@".as_slice(), b"^D", b"A", b""] {
        same(&rt, name, NoAutomatic.value(name)?.is_none(), true);
    }
    Ok(())
}
