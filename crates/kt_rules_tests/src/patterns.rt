//! The pattern rules of a book.
use crate::asking::{Question, answers};
use std::test::Fail;

#[test]
fn lists_pattern_rules(rt: HostRuntime) -> Result<(), Fail> {
    answers(
        &rt,
        rt.alloc(),
        &[
            (b"%.o: %.c;cc", Question::Patterns, b"m:1 %.o : %.c,|cc."),
            (
                b"%.h %.c:: %.y | z;y",
                Question::Patterns,
                b"m:1 %.h %.c :: %.y,|z,y.",
            ),
            (
                b"%.b %.a: c;x\n%.a %.b: c;y",
                Question::Patterns,
                b"m:1 %.b %.a : c,|x.m:2 %.a %.b : c,|y.",
            ),
            (b"%.o: %.c\na: b;x", Question::Patterns, b""),
            (b"%.o: %.c;cc\n%.o: %.c", Question::Patterns, b""),
            (b"%.o: %.c;one\n%.o:: ./%.c", Question::Patterns, b""),
            (
                b"%.o: %.c;x\n%.o: %.c;y\n%.o: %.c;z",
                Question::Patterns,
                b"m:3 %.o : %.c,|z.",
            ),
            (
                b"%.o: %.c | %.c;one\n%.o: %.c",
                Question::Patterns,
                b"m:1 %.o : %.c,|%.c,one.",
            ),
            (b".c.o:;cc", Question::Patterns, b"m:1 %.o : %.c,|cc."),
            (b".c:;cc", Question::Patterns, b"m:1 % : %.c,|cc."),
            (
                b".x.o:;cc\n.SUFFIXES: .x",
                Question::Patterns,
                b"m:1 %.o : %.x,|cc.",
            ),
            // A name is cut at the first place that fits, wherever the suffixes stand among the others.
            (
                b".SUFFIXES: .x.y .z .x .y.z\n.x.y.z:;cc",
                Question::Patterns,
                b"m:2 %.y.z : %.x,|cc.",
            ),
            (
                b".SUFFIXES: .x .y.z .x.y .z\n.x.y.z:;cc",
                Question::Patterns,
                b"m:2 %.y.z : %.x,|cc.",
            ),
            (
                b".SUFFIXES: .x.y .z .x\n.x.y.z:;cc",
                Question::Patterns,
                b"m:2 %.z : %.x.y,|cc.",
            ),
            // A name that begins with a suffix and doesn't go on with one.
            (b".c.:;cc\n.cx:;cc\n.c.q:;cc", Question::Patterns, b""),
            (b".c.o: .c%:;cc", Question::Patterns, b"m:1 %.o : %.c,|cc."),
            (b".SUFFIXES:\n.c.o:;cc", Question::Patterns, b""),
            (b".c.o: | p;cc", Question::Patterns, b""),
            (b".c.o .z &:;x", Question::Patterns, b""),
            (b".c.o::;x", Question::Patterns, b""),
            (b".c.o:;one\n%.o: %.c", Question::Patterns, b""),
            (
                b"%.o: %.c;x\n%.a: %.b;y\n.c.o:;z",
                Question::Patterns,
                b"m:2 %.a : %.b,|y.m:3 %.o : %.c,|z.",
            ),
        ],
    )?;
    Ok(())
}
