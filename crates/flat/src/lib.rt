// The flat machine's arrays: what their numbers mean, and how they are read.
#![tactic(auto)]

ghost use Rattle.std.specs.Prelude.{◌≡◌, ◌+◌, ◌-◌, ◌≤◌, ◌<◌, eqb};
ghost use Rattle.flat.specs.Codes.{node_code, active_of, defect_of, unrooted_of, pointer_of, edge_code, growth_of, correction_of};
ghost use Rattle.flat.specs.Entries.{over_by};
ghost use Rattle.flat.specs.Structs.{plan_in};

mod arrays;
mod layout;
mod parts;

pub use arrays::{Arrays, Work};
pub use layout::Layout;
pub use parts::any_of;

// Before the nodes of a plane and behind them are margins, so that a neighbour is an entry plus a constant.
pub const MARGIN: usize = 512;

// The entries of a plane.
pub const PLANE: usize = 4608;

// The edges: a plane for each of six kinds.
pub const PLANES: usize = 6 * PLANE;

// The table of a shape. Its first parts, of 32 entries each: by direction, from 0, how far its neighbour lies, with the margin added, how far its
// edge (SLOTS), and the pointer back (BACKS); by kind, the direction in which a node names its edge (NAMERS); by pointer, whether it has a D
// (FALLS); by kind, whether its edges go up (RISES). Then each node's number at its entry, a fresh sheet's edges kind by kind, as many entries for each as the
// largest sheet has nodes (FRESH), and the bottom layer's edges by number (PLACES).
pub const TABLE: usize = 7680;

pub const PART: usize = 32;

pub const SLOTS: usize = PART;

pub const BACKS: usize = 2 * PART;

pub const NAMERS: usize = 3 * PART;

pub const FALLS: usize = 4 * PART;

pub const RISES: usize = 5 * PART;

pub const FRESH: usize = PLANE;

pub const PLACES: usize = FRESH + 1536;

// Two work lists, and from ACTIVE on the active nodes.
pub const LISTS: usize = 3 * PLANE;

pub const ACTIVE: usize = 2 * PLANE;

// A mark that is reset.
pub const RESET: u16 = 65535;

// The growth that stands for no edge.
pub const NO_EDGE: u8 = 3;

// The sizes of a shape: directions and kinds of its table of steps, nodes of the window and of a sheet, and the lowest number of a detector.
#[derive(Clone, Copy)]
pub struct Sizes {
    pub dirs: usize,
    pub kinds: usize,
    pub nodes: usize,
    pub sheet: usize,
    pub bound: u16,
}

// What flooding leaves of a node.
#[derive(Clone, Copy)]
pub struct Flood {
    pub mark: u16,
    pub pointer: u8,
}

// The entry over a direction.
pub fn over(x: usize, by: u16) -> usize
    requires { (512 ≤ x) × (x < 4608) }
    ensures { result ≡ over_by x by }
{
    x + by as usize - MARGIN
}

impl Layout {
    // The entry of the node over a direction.
    pub fn over(&self, x: usize, k: usize) -> usize
        requires { (512 ≤ x) × (x < 512 + self.now.sizes.nodes) × (k < 32) }
        ensures value { result ≡ over_by x ((plan_in self.now).off k) }
        ensures bound { result < 4608 }
    {
        over(x, self.table[k])
    }

    // The entry of the edge in a direction.
    pub fn slot(&self, x: usize, k: usize) -> usize
        requires { (512 ≤ x) × (x < 512 + self.now.sizes.nodes) × (k < 32) }
        ensures value { result ≡ over_by x ((plan_in self.now).slot k) }
        ensures bound { result < 27648 }
    {
        over(x, self.table[SLOTS + k])
    }
}

pub fn active(v: u8) -> bool
    ensures { result ≡ active_of v }
{
    v % 2 == 1
}

pub fn defect(v: u8) -> bool
    ensures { result ≡ defect_of v }
{
    v / 2 % 2 == 1
}

pub fn unrooted(v: u8) -> bool
    ensures { result ≡ unrooted_of v }
{
    v / 4 % 2 == 1
}

pub fn pointer(v: u8) -> u8
    ensures { (result ≡ pointer_of v) × (result < 32) }
{
    v / 8
}

pub fn node(active: bool, defect: bool, unrooted: bool, pointer: u8) -> u8
    requires { pointer < 32 }
    ensures { result ≡ node_code active defect unrooted pointer }
{
    u8::from(active) + 2 * u8::from(defect) + 4 * u8::from(unrooted) + 8 * pointer
}

pub fn growth(v: u8) -> u8
    ensures { result ≡ growth_of v }
{
    v % 4
}

pub fn corrected(v: u8) -> bool
    ensures { result ≡ correction_of v }
{
    v / 4 == 1
}

pub fn edge(growth: u8, correction: bool) -> u8
    requires { growth < 4 }
    ensures { result ≡ edge_code growth correction }
{
    growth + 4 * u8::from(correction)
}

// An edge of growth 2.
pub fn is_open(v: u8) -> bool
    ensures { result ≡ eqb (growth_of v) 2 }
{
    v % 4 == 2
}
