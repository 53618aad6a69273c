//! Regions: a rectangle of own columns and rows, and one of the same size of another surface.
ghost use Rattle.std.specs.Prelude.{◌≡◌, ◌||◌, ◌==◌};
ghost use Rattle.termwiz_screen.specs.{band, cut, fitting, region_value};

/// A rectangle of own columns and rows, and one of the same size of another surface.
#[derive(Clone, Copy)]
pub struct Region {
    pub x: usize,
    pub y: usize,
    pub width: usize,
    pub height: usize,
    pub other_x: usize,
    pub other_y: usize,
}

impl Region {
    /// This many whole rows, from row `y` on, and the other surface's from row 0 on.
    pub fn band(width: usize, y: usize, height: usize) -> Region
        ensures { region_value result ≡ band width y 0 height }
    {
        Region {
            x: 0,
            y,
            width,
            height,
            other_x: 0,
            other_y: 0,
        }
    }

    /// The part that fits in the own width and height, and in the other's.
    pub fn cut(self, own: (usize, usize), other: (usize, usize)) -> Region
        ensures { region_value result ≡ cut (region_value self) own.0 own.1 other.0 other.1 }
    {
        Region {
            x: self.x,
            y: self.y,
            width: fitting(self.width, own.0, self.x, other.0, self.other_x),
            height: fitting(self.height, own.1, self.y, other.1, self.other_y),
            other_x: self.other_x,
            other_y: self.other_y,
        }
    }

    /// Whether it has no column or no row.
    pub fn is_empty(self) -> bool
        ensures { result ≡ (self.width == 0 || self.height == 0) }
    {
        self.width == 0 || self.height == 0
    }
}

fn fitting(count: usize, own: usize, from: usize, other: usize, other_from: usize) -> usize
    ensures { result ≡ fitting count own from other other_from }
{
    let own_left = own.saturating_sub(from);
    let other_left = other.saturating_sub(other_from);
    count.min(own_left.min(other_left))
}
