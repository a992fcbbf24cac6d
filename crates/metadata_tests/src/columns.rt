// Columns that are searched, also those whose length is no whole number of blocks.
use lane_cols::{all_at_most, places_of};
use std::alloc::{AllocError, Global};

/// Whether so many places hold the value, and which the first and the last are.
fn has_places(
    alloc: Global,
    column: &[u32],
    value: u32,
    want: (usize, Option<u32>, Option<u32>),
) -> Result<bool, AllocError> {
    if column.len() > 2000 {
        return Ok(false);
    }
    let places = places_of(alloc, column, value)?;
    let found = places.as_slice();
    let (count, first, last) = want;
    Ok(found.len() == count && found.first().copied() == first && found.last().copied() == last)
}

#[test]
fn values_stand_at_their_places(rt: HostRuntime) -> Result<(), AllocError> {
    let mut weekdays = [0u32; 1003];
    for i in 0..1003u32 {
        weekdays[i as usize] = i % 7;
    }
    let mut zeros = [0u32; 67];
    zeros[66] = 9;
    let rows: [(&[u32], u32, (usize, Option<u32>, Option<u32>)); 4] = [
        (&[5, 0, 5], 5, (2, Some(0), Some(2))),
        (&[], 5, (0, None, None)),
        (&weekdays, 3, (143, Some(3), Some(997))),
        (&zeros, 9, (1, Some(66), Some(66))),
    ];
    for (column, value, want) in rows {
        assert!(rt; has_places(rt.alloc(), column, value, want)?, "of {value}");
    }
    Ok(())
}

/// Whether a column of sevens with one large number at a place has a bound that says so.
fn is_bounded(place: usize) -> bool {
    let mut column = [7u32; 19];
    if let Some(cell) = column.get_mut(place) {
        *cell = u32::MAX;
    }
    all_at_most(&column, u32::MAX - 1)
}

#[test]
fn bounds_of_columns(rt: HostRuntime) {
    let rows: [(&[u32], u32, bool); 5] = [
        (&[1, 2, 3], 2, false),
        (&[1, 2, 3], 3, true),
        (&[], 0, true),
        (&[7; 19], 7, true),
        (&[7; 19], 6, false),
    ];
    for (column, bound, want) in rows {
        assert!(rt; all_at_most(column, bound) == want, "by {bound}");
    }
    for place in [0, 7, 8, 15, 16, 18] {
        assert!(rt; !is_bounded(place), "at {place}");
    }
}
