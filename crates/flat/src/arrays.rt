// The arrays of a window, and those of a run.

ghost use Rattle.std.specs.Prelude.{◌≡◌, replicate, false};

use crate::{LISTS, NO_EDGE, PLANE, PLANES};

// A window in the arrays.
#[derive(Drop)]
pub struct Arrays {
    pub nodes: [u8; PLANE],
    pub marks: [u16; PLANE],
    pub edges: [u8; PLANES],
}

// What a run works with: the work lists, which nodes are on one, and a word for each listed node.
#[derive(Drop)]
pub struct Work {
    pub lists: [u16; LISTS],
    pub queued: [bool; PLANE],
    pub words: [u32; PLANE],
}

impl Arrays {
    // No node, and no edge.
    pub fn empty() -> Arrays
        ensures nodes { result.nodes ≡ replicate 4608 0 }
        ensures marks { result.marks ≡ replicate 4608 0 }
        ensures edges { result.edges ≡ replicate 27648 3 }
    {
        Arrays {
            nodes: [0; PLANE],
            marks: [0; PLANE],
            edges: [NO_EDGE; PLANES],
        }
    }
}

impl Work {
    // No node is listed.
    pub fn empty() -> Work
        ensures lists { result.lists ≡ replicate 13824 0 }
        ensures queued { result.queued ≡ replicate 4608 false }
        ensures words { result.words ≡ replicate 4608 0 }
    {
        Work {
            lists: [0; LISTS],
            queued: [false; PLANE],
            words: [0; PLANE],
        }
    }
}
