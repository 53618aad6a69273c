//! Tables of widths, as C has them.
ghost use Rattle.std.specs.Prelude.{◌≡◌, true};
ghost use Rattle.tikeburo_c.specs.WidthRanges.{is_table};

/// The characters from `first` to `last`, each of `columns` columns.
#[repr(C)]
#[derive(Clone, Copy, PartialEq, Eq)]
pub struct WidthRange {
    pub first: u32,
    pub last: u32,
    pub columns: u8,
}

/// Ranges of the caller's, which `is_table` accepts.
#[derive(Clone, Copy)]
pub struct WidthTable<'t> {
    pub(crate) ranges: &'t [WidthRange],
    ghost rises: { is_table ranges.now ≡ true },
}
