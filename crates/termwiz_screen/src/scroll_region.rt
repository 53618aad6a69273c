//! Tests whether the regions of scrolls lie on a surface.
ghost use Rattle.std.specs.Prelude.{◌≡◌, ◌+◌, map, nat_le};
ghost use Rattle.termwiz_screen.specs.{change_value, region_fits, regions_fit};

use termwiz_cell::change::Change;

/// Whether no scroll's region goes past the last row.
pub fn regions_fit(changes: &[Change], height: usize) -> bool
    ensures { result ≡ regions_fit height (map change_value changes.now) }
{
    for change in changes {
        if !region_fits(change, height) {
            return false;
        }
    }
    true
}

/// Whether the change is no scroll whose region goes past the last row.
pub fn region_fits(change: &Change, height: usize) -> bool
    ensures { result ≡ region_fits height (change_value change.now) }
{
    match change {
        Change::ScrollRegionUp {
            first_row,
            region_size,
            ..
        }
        | Change::ScrollRegionDown {
            first_row,
            region_size,
            ..
        } => ends_within(*first_row, *region_size, height),
        _ => true,
    }
}

fn ends_within(first: usize, size: usize, height: usize) -> bool
    ensures { result ≡ nat_le (first + size) height }
{
    first <= height && size <= height - first
}
