//! What a shaper is given of a line.
ghost use Rattle.std.specs.Prelude.{◌≡◌, IfOk, string_bytes};
ghost use Rattle.uses.specs.{texts_of, visible};

use std::alloc::{AllocError, Global};
use termwiz_surface::laws::cluster_laws;
use termwiz_surface::{Line, Widths};

/// The text of a line, put together from what a shaper is given for it, cluster by cluster: it is
/// what the line shows.
pub fn shaped_text<W: Widths>(alloc: Global, line: &Line, widths: &W) -> Result<String, AllocError>
    ensures { IfOk result (λ text. string_bytes text ≡ texts_of (visible line.now.cells)) }
{
    // The clusters of visible cells join to them.
    cluster_laws();
    let mut text = String::new(alloc);
    for cluster in line.cluster(widths)? {
        text.push_str(cluster.text.as_str())?;
    }
    Ok(text)
}
