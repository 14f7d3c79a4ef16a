//! Each list of numbers has a number, and what fits in four bytes.
use kt_list::{Lists, narrow, narrow_sum};
use std::alloc::AllocError;

#[test]
fn narrows_numbers(rt: HostRuntime) -> Result<(), AllocError> {
    assert_eq!(rt; narrow(4_294_967_295)?, 4_294_967_295);
    assert!(rt; narrow(4_294_967_296).is_err());
    assert_eq!(rt; narrow_sum(4_294_967_290, 5)?, 4_294_967_295);
    assert!(rt; narrow_sum(4_294_967_290, 6).is_err());
    assert!(rt; narrow_sum(usize::MAX, 6).is_err());
    Ok(())
}

#[test]
fn numbers_each_list_once(rt: HostRuntime) -> Result<(), AllocError> {
    let mut lists = Lists::new(rt.alloc());
    let numbers = [lists.add(&[7])?, lists.add(&[3, 1, 2])?, lists.add(&[7])?];
    assert_eq!(rt; numbers, [0, 1, 0]);
    assert_eq!(rt; lists.get(1), Some([3u32, 1, 2].as_slice()));
    assert_eq!(rt; lists.number_of(&[1, 3]), None);
    Ok(())
}

#[test]
fn numbers_lists_of_one_hash(rt: HostRuntime) -> Result<(), AllocError> {
    let mut lists = Lists::new(rt.alloc());
    let numbers = [
        lists.add(&[1, 0, 0, 0])?,
        lists.add(&[0, 0, 2_135_587_861, 2_654_435_769])?,
    ];
    assert_eq!(rt; numbers, [0, 1]);
    Ok(())
}
