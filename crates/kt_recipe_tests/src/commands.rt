//! Commands: pieces, prefixes, the shell, order, faults.
use crate::told::{Asked, Question, Row, tells, told};
use kt_testing::put;

#[test]
fn quotes_and_joins(rt: HostRuntime) {
    const ROWS: &[Row] = &[
        (
            "t: ; echo \"it's $$HOME\"\n",
            "",
            "t",
            "/bin/sh -c 'echo \"it'\\''s $HOME\"'\n",
        ),
        (
            "define go\n@echo one\n-false\nendef\nt:\n\t$(go)\n",
            "",
            "t",
            "/bin/sh -c 'echo one' && { /bin/sh -c 'false' || :; }\n",
        ),
        (
            "a:: b ; one $<\na:: c ; two $<\n",
            "",
            "a",
            "/bin/sh -c 'one b' && /bin/sh -c 'two c'\n",
        ),
        ("t: ; @-a\n", "", "t", "{ /bin/sh -c 'a' || :; }\n"),
        (
            "SHELL = /bin/bash -e\nt: ; $(SHELL) it's\n",
            "",
            "t",
            "/bin/bash -e -c '/bin/bash -e it'\\''s'\n",
        ),
        ("t:\n\ta; \\\n\tb\n", "", "t", "/bin/sh -c 'a; b'\n"),
        ("SHELL = $() sh\nt: ; true\n", "", "t", " sh -c 'true'\n"),
        ("SHELL := s$$h\nt: ; a\n", "", "t", "s$h -c 'a'\n"),
    ];
    tells(&rt, rt.alloc(), 100, ROWS);
}

#[test]
fn takes_prefixes(rt: HostRuntime) {
    const ROWS: &[Row] = &[
        ("t: ; \\\n\t @ echo a\n", "", "t", "/bin/sh -c 'echo a'\n"),
        (
            "t: ; -$(X)\ndefine X\na\n @- \nb\nendef\n",
            "",
            "t",
            "{ /bin/sh -c 'a' || :; } && { /bin/sh -c 'b' || :; }\n",
        ),
        (
            "M = -\ndefine two\n@-a\nb\nendef\nt:\n\t$(M)x\n\t$(two)\n",
            "",
            "t",
            "{ /bin/sh -c 'x' || :; } && { /bin/sh -c 'a' || :; } && /bin/sh -c 'b'\n",
        ),
        ("t:\n\ta \n\t @ \n", "", "t", "/bin/sh -c 'a '\n"),
    ];
    tells(&rt, rt.alloc(), 100, ROWS);
}

#[test]
fn makes_phony(rt: HostRuntime) {
    const ROWS: &[Row] = &[
        ("t: ; $(X)\n", "", "t", "phony\n"),
        ("t: ;\n", "", "t", "phony\n"),
        ("t: b\n", "", "t", "phony\n"),
        ("t:\n\t\n", "", "t", "phony\n"),
    ];
    tells(&rt, rt.alloc(), 100, ROWS);
}

#[test]
fn tells_in_order(rt: HostRuntime) {
    const ROWS: &[Row] = &[
        (
            "t: ; echo $(info hi)x\n",
            "",
            "t",
            "/bin/sh -c 'echo x'\nhi\n",
        ),
        (
            "define SHELL\n$(info s)sh\nendef\nt:\n\t$(info 1)a\n\t$(info 2)b\n",
            "",
            "t",
            "sh -c 'a' && sh -c 'b'\n1\ns\n2\ns\n",
        ),
        (
            "define R\nt:\n\techo $$(warning w)\nendef\n\n$(eval $(R))\n",
            "",
            "t",
            "/bin/sh -c 'echo '\nMakefile:6: w\n",
        ),
    ];
    tells(&rt, rt.alloc(), 100, ROWS);
}

#[test]
fn stops_at_faults(rt: HostRuntime) {
    const ROWS: &[Row] = &[
        (
            "t: ; $(eval A = 1)\n",
            "",
            "t",
            "Makefile:1: *** eval in a recipe [E32]\n",
        ),
        (
            "SHELL = $(error $@)\nt:\n\ta\n",
            "",
            "t",
            "Makefile:3: *** t [E19]\n",
        ),
        (
            "t: \\\n a ; $(error x)\n",
            "",
            "t",
            "Makefile:1: *** x [E19]\n",
        ),
        (
            "t:\n\t$(info 1)a\n\t$(x\n",
            "",
            "t",
            "Makefile:3: *** unterminated reference [E07]\n1\n",
        ),
    ];
    tells(&rt, rt.alloc(), 100, ROWS);
}

#[test]
fn counts_levels(rt: HostRuntime) {
    const ROWS: &[Row] = &[
        ("t: ; a\n", "", "t", "/bin/sh -c 'a'\n"),
        ("A = $(B)\nt: ; $(A)\n", "", "t", "phony\n"),
        (
            "A = $(B)\nB = x\nt: ; $(A)\n",
            "",
            "t",
            "Makefile:3: *** nesting too deep [E08]\n",
        ),
        (
            "SHELL = $(B)\nB = x\nt: ; a\n",
            "",
            "t",
            "Makefile:3: *** nesting too deep [E08]\n",
        ),
    ];
    tells(&rt, rt.alloc(), 1, ROWS);
}

#[test]
fn lines_of_other_nodes(rt: HostRuntime) {
    const ROWS: &[Row] = &[
        (
            "CC = cc\nF = -O $(W)\nW := -w\n%.o: %.c ; $(CC) ${F} -c $< -o $@ $(@F)$$ $(U)\n",
            "a.c\nd/b.c",
            "a.o\nd/b.o",
            "/bin/sh -c 'cc -O -w -c a.c -o a.o a.o$ '\n/bin/sh -c 'cc -O -w -c d/b.c -o d/b.o b.o$ '\n",
        ),
        (
            "a: ; one $@\nb: ; two $@\nc: ; one $@\n",
            "",
            "a\nb\nc",
            "/bin/sh -c 'one a'\n/bin/sh -c 'two b'\n/bin/sh -c 'one c'\n",
        ),
        (
            "a b: ; x $(if $@,$@) $^\n",
            "",
            "a\nb",
            "/bin/sh -c 'x a '\n/bin/sh -c 'x b '\n",
        ),
        (
            "@ = no\nV = $@\na b: ; $(V) $(@)\n",
            "",
            "a\nb",
            "/bin/sh -c 'a a'\n/bin/sh -c 'b b'\n",
        ),
    ];
    tells(&rt, rt.alloc(), 100, ROWS);
}

#[test]
fn calls_that_are_known(rt: HostRuntime) {
    const ROWS: &[Row] = &[
        (
            "a b: s ; x $(if $(filter 1,0),$<,$^ $@) $(if 1,$@,no)$(if ,no)$(if ,no,${@}) $(subst a,[$$],aba)\n",
            "",
            "a\nb",
            "/bin/sh -c 'x s a aa [$]b[$]'\n/bin/sh -c 'x s b bb [$]b[$]'\n",
        ),
        (
            "N = 2\nV = $(word $N,p q r)\nW = $(if $(V),$(addprefix -$(V),c d) $@)\na b: ; : $W $(V:q=z)\nN = 3\n",
            "",
            "a\nb",
            "/bin/sh -c ': -rc -rd a r'\n/bin/sh -c ': -rc -rd b r'\n",
        ),
        (
            "a b: ; $(words $@ $(U)) $(if $@,$(if  ,x,y)) $(or ,$@) $(and $@,1)\n",
            "",
            "a\nb",
            "/bin/sh -c '1 y a 1'\n/bin/sh -c '1 y b 1'\n",
        ),
        (
            "a: ; $(if a)\n",
            "",
            "a",
            "Makefile:1: *** bad argument of if [E18]\n",
        ),
        (
            "a: ; $(word x,a b)\n",
            "",
            "a",
            "Makefile:1: *** bad argument of word [E18]\n",
        ),
        (
            "a: ; $(if $(info i)1,$(word 2,a b),$(error e)) $(sort $(info j)c b)\n",
            "",
            "a",
            "/bin/sh -c 'b b c'\ni\nj\n",
        ),
    ];
    tells(&rt, rt.alloc(), 100, ROWS);
}

#[test]
fn counts_levels_of_calls(rt: HostRuntime) {
    const ROWS: &[Row] = &[
        (
            "A = x\nt: ; $(if $(A),$(sort $@ b))\n",
            "",
            "t",
            "/bin/sh -c 'b t'\n",
        ),
        (
            "A = x\nt: ; $(if ,,$(if 1,$(A)))\n",
            "",
            "t",
            "Makefile:2: *** nesting too deep [E08]\n",
        ),
        (
            "A = x\nt: ; $(sort $(sort $(A)))\n",
            "",
            "t",
            "Makefile:2: *** nesting too deep [E08]\n",
        ),
    ];
    tells(&rt, rt.alloc(), 2, ROWS);
}

// More lines than are kept.
#[test]
fn long_recipes(rt: HostRuntime) {
    let alloc = rt.alloc();
    let mut makefile = Vec::new(alloc);
    let mut expected = Vec::new(alloc);
    put(&mut makefile, b"t:\n");
    for number in 0..70 {
        put(&mut makefile, b"\t: $@\n");
        if number != 0 {
            put(&mut expected, b" && ");
        }
        put(&mut expected, b"/bin/sh -c ': t'");
    }
    put(&mut expected, b"\n");
    let asked = Asked {
        list: b"",
        goals: b"t",
        question: Question::Commands(100),
    };
    let told = told(&rt, alloc, makefile.as_slice(), asked);
    assert_eq!(&rt; told.as_slice(), expected.as_slice());
}
