// The layout of a shape.

ghost use Rattle.flat.specs.Plan.{Safe};

use crate::{Sizes, TABLE};

// The layout of a shape in the arrays: its sizes and its table, by which every reading stays in them, whatever pointers the nodes hold.
#[derive(Drop)]
pub struct Layout {
    pub sizes: Sizes,
    pub table: [u16; TABLE],
    ghost safe: { Safe sizes table },
}
