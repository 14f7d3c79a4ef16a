//! Which plans are equal.
use crate::sameness::same;
use kt_ninja::copied_plan;
use kt_ninja_doubles::plan_of;

/// Two plans, and whether they are the same.
const PAIRS: [(&[u8], &[u8], bool); 12] = [
    (b">", b">", true),
    (
        b"a,b,;=c;d,;e,;f,#g,;;;;#>a,",
        b"a,b,;=c;d,;e,;f,#g,;;;;#>a,",
        true,
    ),
    // one part differs
    (b"a,;=c;d,;e,;f,#>a,", b"b,;=c;d,;e,;f,#>a,", false),
    (b"a,;=c;d,;e,;f,#>a,", b"a,;=x;d,;e,;f,#>a,", false),
    (b"a,;=c;d,;e,;f,#>a,", b"a,;;d,;e,;f,#>a,", false),
    (b"a,;=c;d,;e,;f,#>a,", b"a,;=c;x,;e,;f,#>a,", false),
    (b"a,;=c;d,;e,;f,#>a,", b"a,;=c;d,;x,;f,#>a,", false),
    (b"a,;=c;d,;e,;f,#>a,", b"a,;=c;d,;e,;x,#>a,", false),
    (b"a,;=c;d,;e,;f,#>a,", b"a,;=c;d,;e,;f,#>x,", false),
    // one plan goes on, or has another order
    (b"a,;=c;;;#>", b"a,;=c;;;#b,;;;;#>", false),
    (b"a,;;;;#b,;;;;#>", b"b,;;;;#a,;;;;#>", false),
    (b"a,b,;;;;#>", b"a,;;b,;;#>", false),
];

#[test]
fn plans_are_equal_where_they_are_the_same(rt: HostRuntime) {
    for (first, second, wanted) in PAIRS {
        let one = plan_of(rt.alloc(), first);
        let two = plan_of(rt.alloc(), second);
        same(&rt, (first, second), one == two, wanted);
    }
}

#[test]
fn a_copy_is_the_plan(rt: HostRuntime) {
    for (first, second, wanted) in PAIRS {
        let one = plan_of(rt.alloc(), first);
        let two = plan_of(rt.alloc(), second);
        let copy = copied_plan(rt.alloc(), &one).expect(&rt, "memory");
        same(
            &rt,
            (first, second),
            (copy == one, copy == two),
            (true, wanted),
        );
    }
}
