//! Plans that can't be written, and what keeps them from it first.
use crate::sameness::same;
use kt_ninja::{
    Unwritable, command_can_hold, name_can_be_written, texts_can_be_written, writable,
    writable_view,
};
use kt_ninja_doubles::plan_of;

/// Plans, and what their trouble is.
const REFUSED: [(&[u8], Unwritable<'static>); 35] = [
    // each alone
    (b"a,;;;;#;;a,;;#>", Unwritable::NoOutput(1)),
    (b"a,;=;;;#>", Unwritable::BadCommand(0)),
    (b"a,b,a,;;;;#>", Unwritable::Repeated(b"a")),
    (b"a,b,;;;;#c,;;;;#d,b,;;;;#>", Unwritable::Repeated(b"b")),
    (b"a,;;b,;;#>a,b,", Unwritable::NotAnOutput(b"b")),
    (b">,", Unwritable::NotAnOutput(b"")),
    // the first of several
    (b"a|,a|,;=;;;#;;;;#>z,", Unwritable::NoOutput(1)),
    (b"a,;=\0;,;\n,;#>z,", Unwritable::BadName(b"")),
    (b"a,a,;=c;;;|,#b,;=\r;;;#>z,", Unwritable::BadName(b"|")),
    (
        b"a,a,;=c;;;#b,;=\r;;;#|,;;;;#>z,",
        Unwritable::BadCommand(1),
    ),
    (b"a,b,b,a,;=c;;;#>z,", Unwritable::Repeated(b"b")),
    (b"a,;=c;;;#>z,y,", Unwritable::NotAnOutput(b"z")),
    // every place of a name, and every byte
    (b"a,,;;b,;c,;d,#>", Unwritable::BadName(b"")),
    (b"a,;;b,,;c,;d,#>", Unwritable::BadName(b"")),
    (b"a,;;b,;c,,;d,#>", Unwritable::BadName(b"")),
    (b"a,;;b,;c,;d,,#>", Unwritable::BadName(b"")),
    (b"a,|,;;b,;c,;d,#>", Unwritable::BadName(b"|")),
    (b"a,;;b,x|y,;c,;d,#>", Unwritable::BadName(b"x|y")),
    (b"a,;;b,;c,|y,;d,#>", Unwritable::BadName(b"|y")),
    (b"a,;;b,;c,;d,x|,#>", Unwritable::BadName(b"x|")),
    (b"a,\r,;;b,;c,;d,#>", Unwritable::BadName(b"\r")),
    (b"a,;;b,x\ry,;c,;d,#>", Unwritable::BadName(b"x\ry")),
    (b"a,;;b,;c,\ry,;d,#>", Unwritable::BadName(b"\ry")),
    (b"a,;;b,;c,;d,x\r,#>", Unwritable::BadName(b"x\r")),
    (b"a,\n,;;b,;c,;d,#>", Unwritable::BadName(b"\n")),
    (b"a,;;b,x\ny,;c,;d,#>", Unwritable::BadName(b"x\ny")),
    (b"a,;;b,;c,\ny,;d,#>", Unwritable::BadName(b"\ny")),
    (b"a,;;b,;c,;d,x\n,#>", Unwritable::BadName(b"x\n")),
    (b"a,\0,;;b,;c,;d,#>", Unwritable::BadName(b"\0")),
    (b"a,;;b,x\0y,;c,;d,#>", Unwritable::BadName(b"x\0y")),
    (b"a,;;b,;c,\0y,;d,#>", Unwritable::BadName(b"\0y")),
    (b"a,;;b,;c,;d,x\0,#>", Unwritable::BadName(b"x\0")),
    // commands
    (b"a,;=x\ry;;;#>", Unwritable::BadCommand(0)),
    (b"a,;=\n;;;#>", Unwritable::BadCommand(0)),
    (b"a,;=x\0;;;#>", Unwritable::BadCommand(0)),
];

#[test]
fn refusals_come_in_order(rt: HostRuntime) {
    for (text, trouble) in REFUSED {
        let plan = plan_of(rt.alloc(), text);
        same(&rt, text, writable(&plan).err(), Some(trouble));
        same(&rt, text, writable_view(&plan).err(), Some(trouble));
    }
}

/// Plans, and the first of their names and commands that can't be written.
const TEXTS: [(&[u8], Option<Unwritable<'static>>); 6] = [
    (b">", None),
    // What else keeps a plan from being written is not looked at.
    (b";=c;;;#a,a,;;b,;c,;d,#>z,,", None),
    (b"a|,a|,;=;;;#;;;;#>z,", Some(Unwritable::BadName(b"a|"))),
    (
        b"a,a,;=c;;;|,#b,;=\r;;;#>z,",
        Some(Unwritable::BadName(b"|")),
    ),
    (
        b"a,;=c;;;#a,;=\r;;;#|,;;;;#>z,",
        Some(Unwritable::BadCommand(1)),
    ),
    (b"a,;=;,;;#>z,", Some(Unwritable::BadName(b""))),
];

#[test]
fn texts_are_told_alone(rt: HostRuntime) {
    for (text, trouble) in TEXTS {
        let plan = plan_of(rt.alloc(), text);
        same(&rt, text, texts_can_be_written(&plan).err(), trouble);
    }
}

/// Bytes, whether a name can be written that has just these, and whether commands can have them.
const BYTES: [(&[u8], bool, bool); 7] = [
    (b"", false, true),
    (b"a b:$#", true, true),
    (b"a|b", false, true),
    (b"a\r", false, false),
    (b"\nb", false, false),
    (b"a\0b", false, false),
    (b"\x80\xff\t", true, true),
];

#[test]
fn names_and_commands_are_told_by_their_bytes(rt: HostRuntime) {
    for (bytes, is_name, is_command) in BYTES {
        same(&rt, bytes, name_can_be_written(bytes), is_name);
        same(&rt, bytes, command_can_hold(bytes), is_command);
    }
}
