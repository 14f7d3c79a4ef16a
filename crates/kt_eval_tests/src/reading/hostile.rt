//! Long and deep makefiles.
use super::{ALONE, machine_of, told, told_by, with_limit};
use kt_eval::MemFiles;
use kt_testing::put;
use std::alloc::{AllocError, Global};
use std::test::Fail;

/// A text between many copies of one before it and of one after it.
fn nested(
    alloc: Global,
    front: &[u8],
    middle: &[u8],
    back: &[u8],
    count: usize,
) -> Result<Vec<u8>, AllocError> {
    let mut text = Vec::new(alloc);
    for _ in 0..count {
        text.extend_from_slice(front)?;
    }
    text.extend_from_slice(middle)?;
    for _ in 0..count {
        text.extend_from_slice(back)?;
    }
    Ok(text)
}

#[test]
fn counts_open_conditionals(rt: HostRuntime) -> Result<(), Fail> {
    let alloc = rt.alloc();
    let open = nested(alloc, b"ifdef X\n", b"", b"", 1000)?;
    let found = told(alloc, ALONE, &open)?;
    assert_eq!(rt;
        found.as_slice(),
        b"Makefile:1000: *** missing endif [E12]".as_slice()
    );
    let closed = nested(alloc, b"ifndef X\n", b"$(info in)\n", b"endif\n", 10_000)?;
    let found = told(alloc, ALONE, &closed)?;
    assert_eq!(rt; found.as_slice(), b"in\n".as_slice());
    Ok(())
}

#[test]
fn stops_a_makefile_that_includes_itself(rt: HostRuntime) -> Result<(), Fail> {
    let alloc = rt.alloc();
    let found = told(alloc, ALONE, b"include Makefile\n")?;
    let expected = nested(
        alloc,
        b"< Makefile\n",
        b"Makefile:1: *** nesting too deep [E08]",
        b"",
        100,
    )?;
    assert_eq!(rt; found.as_slice(), expected.as_slice());
    Ok(())
}

#[test]
fn refuses_names_that_are_no_text(rt: HostRuntime) -> Result<(), Fail> {
    let alloc = rt.alloc();
    let found = told(alloc, ALONE, b"include \xff\n")?;
    assert_eq!(rt;
        found.as_slice(),
        b"Makefile:1: *** include name is not UTF-8 [E34]".as_slice()
    );
    Ok(())
}

#[test]
fn refuses_large_files(rt: HostRuntime) -> Result<(), Fail> {
    let alloc = rt.alloc();
    let mut text = nested(alloc, b"####", b"", b"####", 2_097_152)?;
    let found = told(alloc, ALONE, &text)?;
    assert_eq!(rt; found.as_slice(), b"".as_slice());
    text.push(b'#')?;
    let found = told(alloc, ALONE, &text)?;
    assert_eq!(rt;
        found.as_slice(),
        b"kati: *** file too large: Makefile [E02]".as_slice()
    );
    text.push(0)?;
    let found = told(alloc, ALONE, &text)?;
    assert_eq!(rt;
        found.as_slice(),
        b"kati: *** file too large: Makefile [E02]".as_slice()
    );
    Ok(())
}

/// A name of a given number of letters.
fn put_name(text: &mut Vec<u8>, length: usize) -> Result<(), AllocError> {
    for _ in 0..length {
        text.push(b'x')?;
    }
    Ok(())
}

/// So many macros, each the value of the one before it and the last one empty, and a rule that needs the first.
fn chain(alloc: Global, count: usize) -> Result<Vec<u8>, AllocError> {
    let mut text = Vec::new(alloc);
    for number in 1..count {
        put_name(&mut text, number)?;
        text.extend_from_slice(b" = $(")?;
        put_name(&mut text, number + 1)?;
        text.extend_from_slice(b")\n")?;
    }
    put_name(&mut text, count)?;
    text.extend_from_slice(b" = y\nall: $(x)\n")?;
    Ok(text)
}

#[test]
fn counts_macros_in_macros(rt: HostRuntime) -> Result<(), Fail> {
    let alloc = rt.alloc();
    let deep = chain(alloc, 300)?;
    for (limit, expected) in [
        (300, "all: y |\n"),
        (299, "Makefile:301: *** nesting too deep [E08]"),
    ] {
        let found = told(alloc, with_limit(limit), &deep)?;
        assert_eq!(rt; found.as_slice(), expected.as_bytes());
    }
    Ok(())
}

#[test]
fn finds_no_makefile(rt: HostRuntime) -> Result<(), Fail> {
    let alloc = rt.alloc();
    let files = MemFiles::new(alloc, Vec::new(alloc), 0);
    let found = told_by(alloc, machine_of(alloc, ALONE)?, files);
    assert_eq!(rt; found.as_slice(), b"kati: *** no makefile [E03]".as_slice());
    Ok(())
}

#[test]
fn reads_long_values(rt: HostRuntime) -> Result<(), Fail> {
    let alloc = rt.alloc();
    let value = nested(alloc, b"long ", b"$$(value)", b" text", 1000)?;
    let mut text = Vec::new(alloc);
    put(&mut text, b"A = ");
    put(&mut text, &value);
    put(&mut text, b"\nB := $(A)\nB += x\n$(info $(B))\n");
    let mut expected = nested(alloc, b"long ", b"$(value)", b" text", 1000)?;
    put(&mut expected, b" x\n");
    let found = told(alloc, ALONE, &text)?;
    assert_eq!(rt; found.as_slice(), expected.as_slice());
    Ok(())
}

#[test]
fn counts_many_lines(rt: HostRuntime) -> Result<(), Fail> {
    let alloc = rt.alloc();
    let text = nested(alloc, b"#\n", b"\tx\n", b"", 70_000)?;
    let found = told(alloc, ALONE, &text)?;
    assert_eq!(rt;
        found.as_slice(),
        b"Makefile:70001: *** recipe before a target [E06]".as_slice()
    );
    Ok(())
}

#[test]
fn asks_for_long_names(rt: HostRuntime) -> Result<(), Fail> {
    let alloc = rt.alloc();
    let name = nested(alloc, b"long/", b"name", b"", 100)?;
    let mut text = Vec::new(alloc);
    put(&mut text, b"include ");
    put(&mut text, &name);
    let mut expected = Vec::new(alloc);
    put(&mut expected, b"< ");
    put(&mut expected, &name);
    put(&mut expected, b"\nMakefile:1: *** no file ");
    put(&mut expected, &name);
    put(&mut expected, b" [E04]");
    let found = told(alloc, ALONE, &text)?;
    assert_eq!(rt; found.as_slice(), expected.as_slice());
    Ok(())
}
