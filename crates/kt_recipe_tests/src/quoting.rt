//! Recipes of pieces that look random, and their commands, which are the commands of the pieces one after the other.
use crate::sameness::same;
use crate::told::{Asked, Question, told};
use kt_testing::{Random, put};
use std::alloc::Global;

/// How many recipes are compared.
const COUNT: usize = 2000;

/// A piece of a recipe, and how it stands in its command.
const PIECES: [(&[u8], &[u8]); 14] = [
    (b"a", b"a"),
    (
        b"a long piece without a mark",
        b"a long piece without a mark",
    ),
    (b"'", b"'\\''"),
    (b"''", b"'\\'''\\''"),
    (b"\"", b"\""),
    (b" ", b" "),
    (b"$$", b"$"),
    (b"$$$$", b"$$"),
    (b"#", b"#"),
    (b"$@", b"t"),
    (b"$(@D)", b"."),
    (b"$^", b"b c"),
    (b"${Q}", b"'\\''$"),
    (b"\\\n\t", b""),
];

/// A line of a recipe and its command, each begun by a letter, as blanks, `@`, `-` and `+` there are no part of it.
fn put_line(recipe: &mut Vec<u8>, command: &mut Vec<u8>, random: &mut Random) {
    put(recipe, b"\tx");
    put(command, if command.is_empty() { b"" } else { b" && " });
    put(command, b"/bin/sh -c 'x");
    for _ in 0..random.below(8) {
        if let Some((piece, quoted)) = PIECES.get(random.below(PIECES.len())) {
            put(recipe, piece);
            put(command, quoted);
        }
    }
    put(recipe, b"y\n");
    put(command, b"y'");
}

/// A makefile with a recipe, and what is reported of it.
fn makefile(alloc: Global, random: &mut Random) -> (Vec<u8>, Vec<u8>) {
    let mut makefile = Vec::new(alloc);
    let mut command = Vec::new(alloc);
    put(&mut makefile, b"Q = '$$\nt: b c b\n");
    for _ in 0..random.below(3).saturating_add(1) {
        put_line(&mut makefile, &mut command, random);
    }
    put(&mut command, b"\n");
    (makefile, command)
}

#[test]
fn commands_are_those_of_their_pieces(rt: HostRuntime) {
    let asked = Asked {
        list: b"",
        goals: b"t",
        question: Question::Commands(100),
    };
    let mut random = Random::new(1);
    for _ in 0..COUNT {
        let (makefile, command) = makefile(rt.alloc(), &mut random);
        let told = told(&rt, rt.alloc(), makefile.as_slice(), asked);
        same(
            &rt,
            makefile.as_slice(),
            told.as_slice(),
            command.as_slice(),
        );
    }
}
