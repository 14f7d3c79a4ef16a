//! Whether a call gives what it should, for many calls by one row each. Each crate of tests has it, since in a library no
//! function that may end the program is proved.
use std::fmt::Debug;
use std::process::Abort;

/// Ends the test where two values differ, and says what they are of: a row's text, mostly. To say it in each test by
/// `assert_eq` takes several times as long to prove.
pub fn same<T: PartialEq + Debug + Copy, O: Debug + Copy>(
    rt: &impl Abort,
    of: O,
    found: T,
    wanted: T,
) {
    assert_eq!(rt; found, wanted, "of {of:?}");
}
