//! Conditionals.
use super::{tells, with_limit};
use std::test::Fail;

#[test]
fn reads_conditions(rt: HostRuntime) -> Result<(), Fail> {
    let alloc = rt.alloc();
    tells(
        &rt,
        alloc,
        with_limit(100),
        &[
            (
                "ifeq (a,b)\n$(error no)\nelse ifeq \"a\" 'a'\n$(info yes)\nendif\n",
                "yes\n",
            ),
            (
                "ifdef X\nelse\nelse\nendif\n",
                "Makefile:3: *** stray else [E10]",
            ),
            ("endif\n", "Makefile:1: *** stray endif [E11]"),
            ("endif $(x\n", "Makefile:1: *** stray endif [E11]"),
            ("ifeq(a,b)\n", "Makefile:1: *** missing separator [E05]"),
            (
                "ifdef X\nelse ifeq(a,a)\nelse\nendif\n",
                "Makefile:3: *** stray else [E10]",
            ),
            (
                "ifdef Q\nelse ifdef = x\nendif\n",
                "Makefile:2: *** bad conditional [E15]",
            ),
            ("ifdef Q\nelse endif\n$(info y)\nendif\n", "y\n"),
            (
                "ifeq \" a\" \"a\"\n$(info same)\nelse\n$(info other)\nendif\n",
                "other\n",
            ),
            (
                "ifeq \"a\"'a'\n$(info same)\nelse\n$(info other)\nendif\n",
                "same\n",
            ),
            (
                "ifeq ( a , a )\n$(info same)\nelse\n$(info other)\nendif\n",
                "same\n",
            ),
            (
                "ifeq (${a,b},c)\nendif\n",
                "Makefile:1: *** unterminated reference [E07]",
            ),
            (
                "ifeq ($(a,b)\nendif\n",
                "Makefile:1: *** bad conditional [E15]",
            ),
            (
                "ifeq '$(subst ','a' 'x'\nendif\n",
                "Makefile:1: *** bad conditional [E15]",
            ),
            (
                "A =\nB = $(A)\nifdef A\n$(info a)\nelse ifndef B\n$(info no)\nelse\n$(info b)\nendif\n",
                "b\n",
            ),
            (
                "define T\nifdef v\n$(info yes)\nelse\n$(info no)\nendif\nendef\n$(foreach v,1,$(eval $(value T)))\n",
                "yes\n",
            ),
            ("\n$(eval ifdef X)\n", "Makefile:2: *** missing endif [E12]"),
            (
                "$(info hi)\nifdef X\n",
                "hi\nMakefile:2: *** missing endif [E12]",
            ),
            ("ifdef X\nifdef Y\n", "Makefile:2: *** missing endif [E12]"),
            (
                "ifdef X\nifdef Y\ndefine Z\n",
                "Makefile:3: *** missing endef [E14]",
            ),
            (
                "ifndef X\na: b\na:: c\n",
                "Makefile:3: *** single and double colon on a [E24]",
            ),
        ],
    )?;
    Ok(())
}
