//! The texts of plans, and sinks that take them.
use crate::sameness::same;
use kt_ninja::{MemSink, Plan, Sink, put, writable, write_plan, write_view};
use kt_ninja_doubles::plan_of;
use std::alloc::{AllocError, Global};
use std::process::Abort;

/// Plans, and their texts.
const TEXTS: [(&[u8], &[u8]); 11] = [
    // one rule
    (
        b"a.o,;=/bin/sh -c 'cc -c a.c -o a.o';a.c,;;#>a.o,",
        b"# kati\nrule r0\n command = /bin/sh -c 'cc -c a.c -o a.o'\nbuild a.o: r0 a.c\ndefault a.o\n",
    ),
    // escapes
    (
        b"a b,;=/bin/sh -c 'true';c:d,;;#>a b,",
        b"# kati\nrule r0\n command = /bin/sh -c 'true'\nbuild a$ b: r0 c$:d\ndefault a$ b\n",
    ),
    (
        b"a$b,;=true; $:,::,;$$,;:x ,#>a$b,",
        b"# kati\nrule r0\n command = true\nbuild a$$b: r0 $ $$$: $:$: | $$$$ || $:x$ \ndefault a$$b\n",
    ),
    // a command with a dollar
    (
        b"t,;=/bin/sh -c 'echo \"it'\\''s $HOME\"';;;#>",
        b"# kati\nrule r0\n command = /bin/sh -c 'echo \"it'\\''s $$HOME\"'\nbuild t: r0\n",
    ),
    // a command's first space
    (
        b"t,;= sh -c 'true';;;#>t,",
        b"# kati\nrule r0\n command = $ sh -c 'true'\nbuild t: r0\ndefault t\n",
    ),
    (
        b"t,;=  a: $ |;;;#>",
        b"# kati\nrule r0\n command = $  a: $$ |\nbuild t: r0\n",
    ),
    // order-only
    (
        b"t,;=/bin/sh -c 'echo x - y';x,;;y,#>t,",
        b"# kati\nrule r0\n command = /bin/sh -c 'echo x - y'\nbuild t: r0 x || y\ndefault t\n",
    ),
    // phony
    (
        b"_kati_always_build_,;;;;#clean,;=/bin/sh -c 'rm x';;_kati_always_build_,;#>clean,",
        b"# kati\nbuild _kati_always_build_: phony\nrule r0\n command = /bin/sh -c 'rm x'\nbuild clean: r0 | _kati_always_build_\ndefault clean\n",
    ),
    // a group
    (
        b"a,b,;=/bin/sh -c 'true';c,;;#>a,b,",
        b"# kati\nrule r0\n command = /bin/sh -c 'true'\nbuild a b: r0 c\ndefault a b\n",
    ),
    // numbers of rules, and all kinds of inputs
    (
        b"a,;=one;b,b,;c,d,;e,f,#p,q,;;a,;g,;h,#z,;=two;;;#>",
        b"# kati\nrule r0\n command = one\nbuild a: r0 b b | c d || e f\nbuild p q: phony a | g || h\nrule r1\n command = two\nbuild z: r1\n",
    ),
    (b">", b"# kati\n"),
];

/// Writes the plan to a sink of so much room and step: whether that went well, and the sink.
pub(crate) fn written(
    rt: &impl Abort,
    alloc: Global,
    plan: &Plan,
    room: usize,
    step: usize,
) -> (bool, MemSink) {
    assert!(rt; writable(plan).is_ok());
    let mut sink = MemSink::new(alloc, room, step).expect(rt, "memory");
    let is_ok = write_plan(plan, &mut sink).is_ok();
    (is_ok, sink)
}

#[test]
fn plans_have_their_text(rt: HostRuntime) {
    for (plan, text) in TEXTS {
        let plan = plan_of(rt.alloc(), plan);
        let (is_ok, sink) = written(&rt, rt.alloc(), &plan, 1000, 1000);
        same(&rt, text, sink.as_slice(), text);
        let ended = (is_ok, sink.calls(), sink.failures());
        same(&rt, text, ended, (true, 1, 0));
    }
}

/// Writes what the plan shows as a view, which can be written.
fn viewed(rt: &impl Abort, alloc: Global, plan: &Plan) -> (bool, MemSink) {
    assert!(rt; writable(plan).is_ok());
    let mut sink = MemSink::new(alloc, 1000, 1000).expect(rt, "memory");
    let is_ok = write_view(plan, &mut sink).is_ok();
    (is_ok, sink)
}

#[test]
fn views_have_their_text(rt: HostRuntime) {
    for (plan, text) in TEXTS {
        let plan = plan_of(rt.alloc(), plan);
        let (is_ok, sink) = viewed(&rt, rt.alloc(), &plan);
        same(&rt, text, (is_ok, sink.as_slice()), (true, text));
    }
}

const COMPILED: &[u8] = b"a.o,;=cc -c a.c -o a.o;a.c,;;#>a.o,";

const COMPILED_TEXT: &[u8] =
    b"# kati\nrule r0\n command = cc -c a.c -o a.o\nbuild a.o: r0 a.c\ndefault a.o\n";

/// The sink has a prefix of the text, got in at most two calls and none after the fault.
#[test]
fn sinks_fail(rt: HostRuntime) {
    let plan = plan_of(rt.alloc(), COMPILED);
    for room in 0..COMPILED_TEXT.len() {
        let (is_ok, sink) = written(&rt, rt.alloc(), &plan, room, 1000);
        let calls = if room == 0 { 1 } else { 2 };
        same(&rt, room, sink.as_slice(), &COMPILED_TEXT[..room]);
        let ended = (is_ok, sink.calls(), sink.failures());
        same(&rt, room, ended, (false, calls, 1));
    }
}

/// A byte a call, and none.
#[test]
fn sinks_dawdle(rt: HostRuntime) {
    let plan = plan_of(rt.alloc(), COMPILED);
    let length = COMPILED_TEXT.len();
    let rows: [(usize, &[u8], u64); 2] = [(1, COMPILED_TEXT, length as u64), (0, b"", 1)];
    for (step, held, calls) in rows {
        let (is_ok, sink) = written(&rt, rt.alloc(), &plan, length, step);
        same(&rt, step, sink.as_slice(), held);
        same(&rt, step, (is_ok, sink.calls()), (step == 1, calls));
    }
}

/// Two texts round a given number of times the same bytes.
fn around(
    alloc: Global,
    front: &[u8],
    shown: &[u8],
    count: usize,
    back: &[u8],
) -> Result<Vec<u8>, AllocError> {
    let mut text = front.to_vec(alloc)?;
    for _ in 0..count {
        text.extend_from_slice(shown)?;
    }
    text.extend_from_slice(back)?;
    Ok(text)
}

/// A command's byte, how it is shown, and how often; the text's length, and the calls that take it.
const LONG: [(&[u8], &[u8], usize, usize, u64); 4] = [
    (b"x", b"x", 4057, 4096, 1),
    (b"x", b"x", 4058, 4097, 2),
    (b"x", b"x", 8153, 8192, 2),
    (b"$", b"$$", 100_000, 200_039, 49),
];

#[test]
fn blocks_are_handed_over_when_full(rt: HostRuntime) {
    for (byte, shown, count, length, calls) in LONG {
        let plan = around(rt.alloc(), b"a,;=", byte, count, b";;;#>").expect(&rt, "memory");
        let front = b"# kati\nrule r0\n command = ";
        let text = around(rt.alloc(), front, shown, count, b"\nbuild a: r0\n").expect(
            &rt, "memory",
        );
        let plan = plan_of(rt.alloc(), plan.as_slice());
        let (is_ok, sink) = written(&rt, rt.alloc(), &plan, 300_000, 4096);
        same(&rt, length, text.len(), length);
        same(&rt, length, sink.as_slice(), text.as_slice());
        let ended = (is_ok, sink.calls(), sink.failures());
        same(&rt, length, ended, (true, calls, 0));
    }
}

/// A piece after `ab` in a sink of room 7 and step 2: what it holds then, its calls and failures.
const PIECES: [(&[u8], bool, &[u8], u64, u64); 4] = [
    (b"", true, b"ab", 1, 0),
    (b"cde", true, b"abcde", 3, 0),
    (b"cdefg", true, b"abcdefg", 4, 0),
    (b"cdefgh", false, b"abcdefg", 5, 1),
];

#[test]
fn pieces_are_put(rt: HostRuntime) {
    for (piece, wanted, held, calls, failures) in PIECES {
        let mut sink = MemSink::new(rt.alloc(), 7, 2).expect(&rt, "memory");
        same(&rt, piece, sink.write(b"abc").ok(), Some(2));
        same(&rt, piece, put(&mut sink, piece).is_ok(), wanted);
        same(&rt, piece, sink.as_slice(), held);
        same(
            &rt,
            piece,
            (sink.calls(), sink.failures()),
            (calls, failures),
        );
    }
}
