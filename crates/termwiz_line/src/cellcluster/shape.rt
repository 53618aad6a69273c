//! Which cells join a cluster.
ghost use Rattle.std.specs.Prelude.{◌≡◌};
ghost use Rattle.termwiz_line.specs.{grown, shape_of_one};

/// The cells that a cluster has so far.
#[derive(Clone, Copy, Drop)]
pub(super) enum Shape {
    Spaces,
    Word,
    WordAndSpace,
}

impl Shape {
    /// The shape of one cell.
    pub(super) fn of_one(is_space: bool) -> Shape
        ensures { result ≡ shape_of_one is_space }
    {
        if is_space { Shape::Spaces } else { Shape::Word }
    }

    /// The shape with one more cell, or `None` where the cell doesn't join the cluster.
    pub(super) fn grown(self, is_alike: bool, is_space: bool) -> Option<Shape>
        ensures { result ≡ grown self is_alike is_space }
    {
        if !is_alike {
            return None;
        }
        match (self, is_space) {
            (Shape::Spaces, true) => Some(Shape::Spaces),
            (Shape::Word, false) => Some(Shape::Word),
            (Shape::Word, true) => Some(Shape::WordAndSpace),
            _ => None,
        }
    }
}
