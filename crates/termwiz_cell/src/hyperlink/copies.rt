//! Copies of links, which share nothing with the links that they are copies of.
ghost use Rattle.std.specs.Prelude.{◌≡◌, IfOk};

use super::Hyperlink;
use std::alloc::{AllocError, Global};
use std::rc::Rc;

/// How many copies are remembered.
const MOST: usize = 8;

/// Makes copies of links. Equal links get one copy, which they share, unless eight others were
/// copied in between.
#[derive(Drop, Debug)]
pub struct LinkCopies {
    made: [Option<Rc<Hyperlink>>; MOST],
    count: usize, // of all copies, the place of the next one
}

impl LinkCopies {
    /// It has made none.
    pub fn new() -> LinkCopies {
        LinkCopies {
            made: [None, None, None, None, None, None, None, None],
            count: 0,
        }
    }

    /// A copy of a link.
    pub fn copy(&mut self, alloc: Global, link: &Hyperlink) -> Result<Rc<Hyperlink>, AllocError>
        ensures { IfOk result (λ copy. copy.value ≡ link.now) }
    {
        for made in self.made.iter().flatten() {
            if **made == *link {
                return made.clone();
            }
        }
        let copy = Rc::new(alloc, link.clone()?)?;
        self.made[self.count % MOST] = Some(copy.clone()?);
        self.count = self.count.wrapping_add(1);
        Ok(copy)
    }
}
