//! What is noted at names.
use kt_rules::Index;
use std::test::Fail;

#[test]
fn notes_in_order(rt: HostRuntime) -> Result<(), Fail> {
    let mut index: Index<usize> = Index::new(rt.alloc());
    for (number, name) in [b"a".as_slice(), b"b", b"a", b"", b"a"].iter().enumerate() {
        index.note(name, number)?;
    }
    assert_eq!(rt; index.noted(b"a"), [0, 2, 4].as_slice());
    assert_eq!(rt; index.noted(b"b"), [1].as_slice());
    assert_eq!(rt; index.noted(b""), [3].as_slice());
    assert!(rt;
        index.noted(b"ab").is_empty(),
        "noted at a name of which nothing was noted"
    );
    Ok(())
}
