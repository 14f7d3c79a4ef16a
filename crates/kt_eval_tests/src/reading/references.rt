//! References, calls of text functions, and the other functions.
use super::{tells, with_limit};
use std::test::Fail;

#[test]
fn expands(rt: HostRuntime) -> Result<(), Fail> {
    let alloc = rt.alloc();
    tells(
        &rt,
        alloc,
        with_limit(100),
        &[
            ("S = a.c b\n$(info $(S:.c=.o))\n", "a.o b\n"),
            (
                "$(info $(subst ,x,ab))\n$(info $(join a b,1 2 3))\n",
                "abx\na1 b2 3\n",
            ),
            (
                "$(info $(wordlist 2,9,a b c))\n$(info $(dir a/b c))\n",
                "b c\na/ ./\n",
            ),
            (
                "$(info $(basename a/b.c d.e/f))\n$(info $(sort b a b))\n",
                "a/b d.e/f\na b\n",
            ),
            (
                "$(info $(if ,y,n))\n$(info $(or ,b,$(error no)))\n$(info a,b)\n",
                "n\nb\na,b\n",
            ),
            (
                "$(info $(word 0,a))\n",
                "Makefile:1: *** bad argument of word [E18]",
            ),
            (
                "S = a.c a,c\n$(info [$(S: %.c=x)][$(S:a,c=b,d)])\n",
                "[a.c a,c][a.c b,d]\n",
            ),
            (
                "f = a b:c\n$(info [$(f:a=b:c=d)][$(f:b:c=d)])\n",
                "[b:c=d b:c][a d]\n",
            ),
            (
                "A = $(info value)\n$(info $(A:\\%=x))\n",
                "value\nMakefile:2: *** bad argument of patsubst [E18]",
            ),
            ("$(info $(subst a$,b,a))\n", "b\n"),
            (
                "$(info $(words ${a)}))\n",
                "Makefile:1: *** unterminated reference [E07]",
            ),
            (
                "$(info [$(subst a,${b,c},a)])\n",
                "Makefile:1: *** unterminated reference [E07]",
            ),
            (
                "A = 1\n$(info [$(value A )][$(patsubst a ,x,a)])\n",
                "[][a]\n",
            ),
            ("s = $() $()\n$(info [$(if $(s),y,n)])\n", "[y]\n"),
            (
                "define N\n\n\nendef\n$(info $(word 1$(N),a))\n",
                "Makefile:5: *** bad argument of word [E18]",
            ),
            ("$( info x)\na: ;\n", "a: |\n\t\n"),
        ],
    )?;
    Ok(())
}

#[test]
fn calls(rt: HostRuntime) -> Result<(), Fail> {
    let alloc = rt.alloc();
    tells(
        &rt,
        alloc,
        with_limit(100),
        &[
            (
                "A = 1$(eval A = 2)3$(A)\n$(info $(A))\n$(info $(A))\n",
                "132\n2\n",
            ),
            ("p = z\n$(info $(foreach p,a b,$(p))$(p))\n", "a bz\n"),
            // A number with a zero before it is the name of no argument.
            ("01 = t\nf = [$(01)]\n$(info $(call f,a) $(01))\n", "[] t\n"),
            (
                "f = [$(1):$(2)]\ng = $(call f,x)$(2)\n$(info $(call g,a,b))\n",
                "[x:]b\n",
            ),
            ("$(eval X = $$(Y))\nY = 1\n$(info $(X))\n", "1\n"),
            (
                "r = $(call r)\n$(info $(call r))\n",
                "Makefile:2: *** nesting too deep [E08]",
            ),
            (
                "$(info $(call subst,a,b,c))\n",
                "Makefile:1: *** refused function subst [E16]",
            ),
            (
                "$(info $(call shell,x))\n",
                "Makefile:1: *** refused function shell [E16]",
            ),
            (
                "$(info $(call $(info n)subst,$(error no)))\n",
                "n\nMakefile:1: *** refused function subst [E16]",
            ),
            ("$(eval endif)\n", "Makefile:1: *** stray endif [E11]"),
            ("$(info $(foreach v,$$x,$(value v)))\n", "$x\n"),
            ("$(foreach A,x,$(eval A ?= y))$(info $(A))\n", "y\n"),
            (
                "f = [$(1)]\n$(info $(foreach 1,z,$(call f,x)$(1)$(call f)))\n",
                "[x]z[]\n",
            ),
            ("f = $(foreach 1,z,[$(1)])\n$(info $(call f,x))\n", "[z]\n"),
            (
                "f = $(1)\n$(info $(call f,$$(A)) $(foreach p,$$(B),$(p) $(value p) $(call p) $(p:%=<%>)))\n",
                "$(A) $(B) $(B) $(B) <$(B)>\n",
            ),
            (
                "1 = table\n$(info [$(call 1,x)][$(call 0,x)])\n",
                "[x][0]\n",
            ),
            ("S = a.c\n$(info [$(call S:.c=.o)])\n", "[]\n"),
            ("$(info $(foreach ,a b,[$()]))\n", "[a] [b]\n"),
        ],
    )?;
    Ok(())
}
