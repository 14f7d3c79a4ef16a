//! What texts are expanded to.
use crate::sameness::same;
use kati_doubles::{put_messages, put_stop};
use kt_eval::{Flavour, Macro, Macros, NoAutomatic, Origin, Stop, Value};
use kt_list::Sequence;
use kt_testing::{Random, put};
use std::alloc::{AllocError, Global};
use std::test::Fail;

mod calls;
mod levels;

fn table(alloc: Global, rows: &[(&str, Flavour, &str)]) -> Result<Macros, AllocError> {
    let mut macros = Macros::new(alloc);
    for (name, flavour, value) in rows {
        let value = Value::copied(alloc, value.as_bytes())?;
        let name = Vec::from_slice(alloc, name.as_bytes())?;
        macros.insert(
            name,
            Macro {
                flavour: *flavour,
                origin: Origin::Makefile,
                value,
            },
        )?;
    }
    Ok(macros)
}

/// A text, or what stopped its expansion.
fn put_end(out: &mut Vec<u8>, outcome: &Result<Vec<u8>, Stop>) {
    match outcome {
        Ok(text) => put(out, text.as_slice()),
        Err(stop) => put_stop(out, stop),
    }
}

/// Expands. It stands apart so that what the contract says of it burdens no other proof.
fn expanded(
    macros: &Macros,
    text: &[u8],
    messages: &mut Vec<Sequence<u8>>,
    limit: u64,
) -> Result<Vec<u8>, Stop> {
    macros.expand_pure(text, &NoAutomatic, None, messages, limit)
}

/// The messages of expanding a text, and then the expanded text or the fault.
fn told(alloc: Global, macros: &Macros, text: &[u8], limit: u64) -> Vec<u8> {
    let mut messages = Vec::new(alloc);
    let mut out = Vec::new(alloc);
    let outcome = expanded(macros, text, &mut messages, limit);
    put_messages(&mut out, messages.as_slice());
    put_end(&mut out, &outcome);
    out
}

#[test]
fn expands(rt: HostRuntime) -> Result<(), Fail> {
    let alloc = rt.alloc();
    let macros = table(
        alloc,
        &[
            ("S", Flavour::Deferred, "a.c b"),
            ("f", Flavour::Deferred, "[$(1):$(2)]"),
            ("g", Flavour::Deferred, "$(call f,x)$(2)"),
            ("p", Flavour::Deferred, "z"),
            ("r", Flavour::Deferred, "$(call r)"),
            ("i", Flavour::Immediate, "$(S)"),
            ("\\", Flavour::Deferred, "\\"),
        ],
    )?;
    for (text, expected) in [
        ("[$(A)]$$", "[]$"),
        ("$(S:.c=.o)", "a.o b"),
        ("$(i) ${S}", "$(S) a.c b"),
        ("$(subst ,x,ab)", "abx"),
        ("$(join a b,1 2 3)", "a1 b2 3"),
        ("$(wordlist 2,9,a b c)", "b c"),
        ("$(dir a/b c)", "a/ ./"),
        ("$(sort b a b)", "a b"),
        ("$(if ,y,n)", "n"),
        ("$(or ,b,$(error no))", "b"),
        ("$(and a,,c)$(and a,b)", "b"),
        ("$(foreach p,a b,$(p))$(p)", "a bz"),
        ("$(call g,a,b)", "[x:]b"),
        ("$(value f)", "[$(1):$(2)]"),
        ("$(info hi)$(warning w)x", "hi\nkati: w\nx"),
        ("$( info x)", ""),
        ("$(subst a$,b,a)", "b"),
        ("$(word 0,a)", "kati: *** bad argument of word [E18]"),
        ("$(subst a)", "kati: *** bad argument of subst [E18]"),
        ("$(shell ls)", "kati: *** refused function shell [E16]"),
        (
            "$(call $(info n)subst,$(error no))",
            "n\nkati: *** refused function subst [E16]",
        ),
        ("$(eval A = 1)", "kati: *** eval in a recipe [E32]"),
        ("$(call r)", "kati: *** nesting too deep [E08]"),
        ("x$(a", "kati: *** unterminated reference [E07]"),
        ("$(words ${a)})", "kati: *** unterminated reference [E07]"),
        ("a$\\\nb", "a\\\nb"),
        ("[$ \\\nb]", "[\\\nb]"),
    ] {
        let found = told(alloc, &macros, text.as_bytes(), 100);
        same(&rt, text, found.as_slice(), expected.as_bytes());
    }
    Ok(())
}

/// A piece of a text, and what it is expanded to.
const PIECES: [(&[u8], &[u8]); 16] = [
    (b"a", b"a"),
    (b" long text without a mark ", b" long text without a mark "),
    (b"$$", b"$"),
    (b"$$$$", b"$$"),
    (b"$(x)", b"1  2"),
    (b"${x}", b"1  2"),
    (b"$x", b"1  2"),
    (b"$i", b"$(x)"),
    (b"$d", b"1  2"),
    (b"$(none)", b""),
    (b"$(x:2=3)", b"1 3"),
    (b"$(subst 1,$i,$x)", b"$(x)  2"),
    (b"$(words $(x) $d)", b"4"),
    (b"$(if $(none),$(error no),)", b""),
    (b")", b")"),
    (b"\\\n", b"\\\n"),
];

/// Texts of pieces that look random are expanded to what their pieces are, one after the other.
#[test]
fn expands_piece_by_piece(rt: HostRuntime) -> Result<(), Fail> {
    let alloc = rt.alloc();
    let mut random = Random::new(1);
    let macros = table(
        alloc,
        &[
            ("x", Flavour::Deferred, "1  2"),
            ("i", Flavour::Immediate, "$(x)"),
            ("d", Flavour::Deferred, "$x"),
        ],
    )?;
    for _ in 0..4000 {
        let mut text = Vec::new(alloc);
        let mut wanted = Vec::new(alloc);
        for _ in 0..random.below(10) {
            if let Some((piece, value)) = PIECES.get(random.below(PIECES.len())) {
                put(&mut text, piece);
                put(&mut wanted, value);
            }
        }
        let found = told(alloc, &macros, text.as_slice(), 100);
        same(&rt, text.as_slice(), found.as_slice(), wanted.as_slice());
    }
    Ok(())
}
