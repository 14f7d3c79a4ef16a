//! Values of macros, short and long.
use kt_eval::Value;
use std::test::Fail;

#[test]
fn holds_values_of_any_size(rt: HostRuntime) -> Result<(), Fail> {
    let long = b"a value that is longer than what lies in itself".as_slice();
    for bytes in [
        b"".as_slice(),
        b"$".as_slice(),
        b"a value of all thirty letters.".as_slice(),
        b"a value of all thirty-one bytes".as_slice(),
        long,
    ] {
        let copied = Value::copied(rt.alloc(), bytes)?;
        assert_eq!(rt; copied.as_slice(), bytes);
        let moved = Value::from_vec(Vec::from_slice(rt.alloc(), bytes)?)?;
        assert_eq!(rt; moved.as_slice(), bytes);
        let shared = moved.share()?;
        drop(moved);
        assert_eq!(rt; shared.as_slice(), bytes);
    }
    Ok(())
}
