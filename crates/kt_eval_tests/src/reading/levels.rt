//! What is too deep: expansions, functions and includes in one another.
use super::{tells, with_limit};
use std::test::Fail;

#[test]
fn counts_levels(rt: HostRuntime) -> Result<(), Fail> {
    let alloc = rt.alloc();
    tells(
        &rt,
        alloc,
        with_limit(1),
        &[
            (
                "A = $(B)\nB = x\nall: $(A)\n",
                "Makefile:3: *** nesting too deep [E08]",
            ),
            (
                "A =\n$(info $(A))\n",
                "Makefile:2: *** nesting too deep [E08]",
            ),
            (
                "include Makefile\n",
                "< Makefile\nMakefile:1: *** nesting too deep [E08]",
            ),
            (
                "ifdef A\ninclude ~a\nendif\nA = 1\ninclude Makefile\n",
                "< Makefile\nMakefile:2: *** refused name ~a [E20]",
            ),
            (
                "A = $(words a)\nall: $(A)\n",
                "Makefile:2: *** nesting too deep [E08]",
            ),
            (
                "$(info [$(A$$)])\n",
                "Makefile:1: *** nesting too deep [E08]",
            ),
            (
                "$(eval $(eval A = 1))\nall: $(A)\n",
                "Makefile:1: *** nesting too deep [E08]",
            ),
            (
                "A = $(subst a)\nt: $(A)\n",
                "Makefile:2: *** bad argument of subst [E18]",
            ),
            (
                "a.o: a.c\n\tcc -c a.c -o a.o\n",
                "a.o: a.c |\n\tcc -c a.c -o a.o\n",
            ),
        ],
    )?;
    tells(
        &rt,
        alloc,
        with_limit(2),
        &[
            ("A = $(B)\nB = x\nall: $(A)\n", "all: x |\n"),
            ("$(info [$(A$$)])\n", "[]\n"),
            ("$(eval $(eval A = 1))\nall: $(A)\n", "all: 1 |\n"),
        ],
    )?;
    tells(
        &rt,
        alloc,
        with_limit(3),
        &[("$(eval $(eval $(info x)))\n", "x\n")],
    )?;
    tells(
        &rt,
        alloc,
        with_limit(100),
        &[(
            "A = $(A)\nall: $(A)\n",
            "Makefile:2: *** nesting too deep [E08]",
        )],
    )?;
    Ok(())
}
