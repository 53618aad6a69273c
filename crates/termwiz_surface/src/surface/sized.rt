//! Surfaces of a checked size.
ghost use Rattle.std.specs.Prelude.{◌≡◌, ◌↔◌, IfErr, IfOk, IsTrue};
ghost use Rattle.termwiz_surface.specs.{IsSurfaceSize, blank_surface, false};
ghost use Rattle.termwiz_surface.specs.declared.surface.NewSurfaceError.TheVariants as errors;

use super::{NewSurfaceError, Surface};
use std::alloc::Global;
use termwiz_cell::emoji::Widths;

impl<W: Widths> Surface<W> {
    /// A surface as `new` returns it, of a width in columns and a height in rows that are checked.
    /// It fails with `Size` where no surface can have this size.
    pub fn with_size(
        alloc: Global,
        width: usize,
        height: usize,
        widths: W,
    ) -> Result<Surface<W>, NewSurfaceError>
        ensures blank { IfOk result (λ s. s ≡ blank_surface widths width height false) }
        ensures size { IfOk result (λ _. IsSurfaceSize width height) }
        ensures refused { IfErr result (λ error.
            (error ≡ errors.Size width height) ↔ (IsSurfaceSize width height → ⊥)) }
    {
        if !is_surface_size(width, height) {
            return Err(NewSurfaceError::Size { width, height });
        }
        let surface = Surface::new(alloc, width, height, widths)?;
        Ok(surface)
    }
}

// Whether a surface can have this size.
fn is_surface_size(width: usize, height: usize) -> bool
    ensures { IsTrue result ↔ IsSurfaceSize width height }
{
    const MOST: usize = 4294967295;
    (width > 0 && height > 0) && (width <= MOST && height <= MOST)
}
