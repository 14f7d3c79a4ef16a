//! Each name has a number.
use crate::sameness::same;
use kt_list::Names;
use std::alloc::{AllocError, Global};

const LONG: &[u8] = b"a name that is longer than what lies in its value";

#[test]
fn numbers_each_name_once(rt: HostRuntime) -> Result<(), AllocError> {
    let names = three_names(rt.alloc())?;
    for (name, number) in [(b"b".as_slice(), 0), (LONG, 1), (b"", 2)] {
        same(&rt, name, names.number_of(name), Some(number));
        same(&rt, name, names.get(number), Some(name));
        same(&rt, name, names.name_at(number), name);
        same(&rt, name, names.contains(name), true);
    }
    assert_eq!(rt; names.len(), 3);
    assert_eq!(rt; names.number_of(b"ab"), None);
    assert_eq!(rt; names.name_at(3), b"".as_slice());
    Ok(())
}

#[test]
fn gives_a_name_its_number_again(rt: HostRuntime) -> Result<(), AllocError> {
    let mut names = three_names(rt.alloc())?;
    let again = names.number(LONG)?;
    assert_eq!(rt; (again, names.len()), (1, 3));
    Ok(())
}

#[test]
fn copies_its_names(rt: HostRuntime) -> Result<(), AllocError> {
    let names = three_names(rt.alloc())?;
    let texts = names.texts(rt.alloc())?;
    assert_eq!(rt; texts.len(), 3);
    assert_eq!(rt; texts[1].as_slice(), LONG);
    Ok(())
}

// Names of one chain stand in it in turn: there are fewer chains than names.
#[test]
fn numbers_many_names(rt: HostRuntime) -> Result<(), AllocError> {
    let mut names = Names::new(rt.alloc());
    for number in 0..=255u8 {
        names.add(&[number])?;
    }
    names.truncate(100);
    for number in 0..=255u8 {
        let place = if number < 100 {
            Some(number as usize)
        } else {
            None
        };
        assert_eq!(rt; names.number_of(&[number]), place);
    }
    assert_eq!(rt; names.number(&[200])?, 100);
    Ok(())
}

#[test]
fn forgets_names(rt: HostRuntime) -> Result<(), AllocError> {
    let mut names = three_names(rt.alloc())?;
    names.truncate(1);
    assert!(rt; !names.contains(LONG));
    assert_eq!(rt; names.len(), 1);
    names.clear();
    assert_eq!(rt; names.len(), 0);
    Ok(())
}

fn three_names(alloc: Global) -> Result<Names, AllocError> {
    let mut names = Names::new(alloc);
    for name in [b"b".as_slice(), LONG, b""] {
        names.add(name)?;
    }
    Ok(names)
}
