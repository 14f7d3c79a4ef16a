//! Texts, in their value or elsewhere.
use indexmap::IndexSet;
use kt_list::{Key, ShortText, Text};
use std::test::Fail;

#[test]
fn holds_texts_of_any_size(rt: HostRuntime) -> Result<(), Fail> {
    let long = b"a text that is longer than what lies in its value".as_slice();
    for bytes in [
        b"".as_slice(),
        b"%".as_slice(),
        b"a text of all of thirty bytes.".as_slice(),
        b"a text of all thirty-one bytes.".as_slice(),
        long,
    ] {
        let copied = Text::copied(rt.alloc(), bytes)?;
        assert_eq!(rt; copied.as_slice(), bytes);
        let moved = Text::from(Vec::from_slice(rt.alloc(), bytes)?);
        assert_eq!(rt; moved.as_slice(), bytes);
        assert!(rt; copied == moved);
    }
    Ok(())
}

#[test]
fn looks_texts_up_by_their_bytes(rt: HostRuntime) -> Result<(), Fail> {
    let long = b"a text that is longer than what lies in its value".as_slice();
    let mut texts = IndexSet::new(rt.alloc());
    texts.insert(Text::copied(rt.alloc(), b"a")?)?;
    texts.insert(Text::copied(rt.alloc(), long)?)?;
    assert_eq!(rt; texts.get_index_of(Key(b"a")), Some(0));
    assert_eq!(rt; texts.get_index_of(Key(long)), Some(1));
    assert_eq!(rt; texts.get_index_of(Key(b"b")), None);
    assert!(rt; Key(b"a") == Key(b"a"));
    Ok(())
}

#[test]
fn holds_short_texts(rt: HostRuntime) -> Result<(), Fail> {
    let all = b"a text of all of thirty bytes.".as_slice();
    let text = ShortText::of(all).expect(&rt, "a short text");
    assert_eq!(rt; text.again().as_slice(), all);
    assert!(rt; ShortText::of(b"a text of all thirty-one bytes.").is_none());
    Ok(())
}
