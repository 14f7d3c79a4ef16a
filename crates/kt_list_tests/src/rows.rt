//! Rows of any size, one behind another.
use kt_list::Rows;
use std::alloc::{AllocError, Global};

#[test]
fn holds_rows_of_any_size(rt: HostRuntime) -> Result<(), AllocError> {
    let rows = five_rows(rt.alloc())?;
    assert_eq!(rt; rows.len(), 5);
    for (place, row) in [
        (0, [1u8, 2].as_slice()),
        (1, [].as_slice()),
        (2, [5, 6].as_slice()),
        (3, [7].as_slice()),
        (4, [8, 9].as_slice()),
    ] {
        assert_eq!(rt; rows.row(place), Some(row));
        assert_eq!(rt; rows.row_at(place), row);
    }
    assert_eq!(rt; rows.row(5), None);
    assert_eq!(rt; rows.row_at(5), [].as_slice());
    Ok(())
}

#[test]
fn goes_on_after_rows_that_are_cut(rt: HostRuntime) -> Result<(), AllocError> {
    let mut rows = five_rows(rt.alloc())?;
    rows.truncate(3);
    rows.push(4)?;
    assert_eq!(rt; rows.len(), 3);
    assert_eq!(rt; rows.row(2), Some([5u8, 6, 4].as_slice()));
    Ok(())
}

fn five_rows(alloc: Global) -> Result<Rows<u8>, AllocError> {
    let mut rows = Rows::new(alloc);
    let mut moved = vec![in alloc; 5u8, 6]?;
    rows.push(1)?;
    rows.push(2)?;
    rows.push_row(&[])?;
    rows.append_row(&mut moved)?;
    rows.open_row()?;
    rows.push(7)?;
    rows.push_row(&[8, 9])?;
    Ok(rows)
}
