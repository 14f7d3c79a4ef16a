//! Continuations after a dollar: a line says what its condensed text says, and values have none.
use super::{tells, with_limit};
use std::test::Fail;

#[test]
fn joins_lines(rt: HostRuntime) -> Result<(), Fail> {
    let alloc = rt.alloc();
    tells(
        &rt,
        alloc,
        with_limit(100),
        &[
            ("A$\\\n  B = 1\n$(info [$(AB)])\n", "[1]\n"),
            ("A$ \\\nB = 1\n$(info [$(AB)])\n", "[1]\n"),
            ("A$\\\n\\\nB = 1\n$(info [$(AB)])\n", "[1]\n"),
            ("A$\\\r\n  B = 1\r\n$(info [$(AB)])\n", "[1]\n"),
            ("$\\\n y = 1\n$(info [$(y)])\n", "[1]\n"),
            (
                "a: x$\\\n y = z\n",
                "Makefile:1: *** target-specific macro [E23]",
            ),
            (
                "t: A$ \\\nB = 1\n",
                "Makefile:1: *** target-specific macro [E23]",
            ),
            (
                "t: override$\\\n A = b\n",
                "Makefile:1: *** target-specific macro [E23]",
            ),
            ("define $\\\n A :=\nx\nendef\n$(info [$(A)])\n", "[x]\n"),
            ("\tA$\\\n B = 1\n$(info [$(AB)])\n", "[1]\n"),
            ("ifdef$\\\n X\n", "Makefile:1: *** missing separator [E05]"),
            ("a$\\\n b: c$\\\n d\n", "ab: cd |\n"),
        ],
    )?;
    Ok(())
}

#[test]
fn keeps_recipes_and_values(rt: HostRuntime) -> Result<(), Fail> {
    let alloc = rt.alloc();
    tells(
        &rt,
        alloc,
        with_limit(100),
        &[
            ("t: ; echo a$\\\n b\n", "t: |\n\techo a$ b\n"),
            ("t: ; echo [$\\\n  \\\n\tA]\n", "t: |\n\techo [$ A]\n"),
            ("A = v\nt: ; echo [$\\\nA]\n", "t: |\n\techo [$ A]\n"),
            ("t: ; echo a$\\\\\\\nb\n", "t: |\n\techo a$\\\\b\n"),
            ("\\ = 1\nA = a$\\\nb\n$(info [$(A)])\n", "[ab]\n"),
            (
                "\\ = 1\ndefine A\n[$\\\\\nb]\nendef\n$(info $(A))\n",
                "[1\\\nb]\n",
            ),
        ],
    )?;
    Ok(())
}
