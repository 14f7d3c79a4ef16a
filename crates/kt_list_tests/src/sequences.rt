//! A list gives back what it was made from.
use kt_list::{Sequence, Shared};
use std::test::Fail;

#[test]
fn keeps_its_items(rt: HostRuntime) -> Result<(), Fail> {
    let list = Sequence::from(vec![in rt.alloc(); 3u8, 1, 2]?);
    assert_eq!(rt; list.as_slice(), [3, 1, 2].as_slice());
    assert_eq!(rt; list.into_vec().as_slice(), [3, 1, 2].as_slice());
    Ok(())
}

#[test]
fn shares_its_items(rt: HostRuntime) -> Result<(), Fail> {
    let list = Shared::from_vec(vec![in rt.alloc(); 3u8, 1, 2]?)?;
    let again = list.share()?;
    assert_eq!(rt; again.as_slice(), [3, 1, 2].as_slice());
    assert_eq!(rt; list.as_slice(), [3, 1, 2].as_slice());
    Ok(())
}

#[test]
fn grows_apart_from_the_others(rt: HostRuntime) -> Result<(), Fail> {
    let mut list = Shared::from_vec(vec![in rt.alloc(); 3u8, 1]?)?;
    list.extend_from_slice([2].as_slice())?;
    let again = list.share()?;
    list.extend_from_slice([4].as_slice())?;
    assert_eq!(rt; list.as_slice(), [3, 1, 2, 4].as_slice());
    assert_eq!(rt; again.as_slice(), [3, 1, 2].as_slice());
    Ok(())
}

#[test]
fn compares_its_items(rt: HostRuntime) -> Result<(), Fail> {
    let list = Sequence::from(vec![in rt.alloc(); 3u8, 1]?);
    let same = Sequence::from(vec![in rt.alloc(); 3u8, 1]?);
    let longer = Sequence::from(vec![in rt.alloc(); 3u8, 1, 0]?);
    assert!(rt; list == same);
    assert!(rt; list != longer);
    Ok(())
}
