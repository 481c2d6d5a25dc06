// What a window holds. The rules of its calls stand in specs/.
#![tactic(auto)]

ghost use Rattle.std.specs.Prelude.{◌≡◌};
ghost use Rattle.shape.specs.Sizes.{sheets_of};
ghost use Rattle.window.specs.Window.{alone as alone_of, supplied as supplied_of, led_to};

use refusal::Refusal;
use shape::{MAX_DETECTORS, MAX_NODES, Shape};

// The slots of the largest shape, with six kinds of edges.
pub const MAX_SLOTS: usize = 6 * MAX_NODES;

// The last number that a next round can have.
pub const MAX_NEXT: u32 = 4294967295;

// A node's cluster mark: reset, or the number of a root.
#[derive(Clone, Copy, PartialEq, Eq)]
pub enum Mark {
    Reset,
    Root(u16),
}

// Pointers are 0 for C, and the places in the scan order of the window's model, from 1.
#[derive(Clone, Copy)]
pub struct Node {
    pub active: bool,
    pub defect: bool,
    pub unrooted: bool,
    pub pointer: u8,
    pub mark: Mark,
}

#[derive(Clone, Copy, PartialEq, Eq)]
pub enum Stage {
    Rest,
    ToGrow,
    Merging,
}

// Nodes in the internal order; growth and correction of the edges kind by kind, each at the index of the end that names it;
// the last measured sheet, a bit a detector, row by row.
#[derive(Clone, Copy)]
pub struct Window {
    pub shape: Shape,
    pub stage: Stage,
    pub next: u32,
    pub nodes: [Node; MAX_NODES],
    pub growth: [u8; MAX_SLOTS],
    pub correction: [bool; MAX_SLOTS],
    pub measured: [bool; MAX_DETECTORS],
}

// What a step leads to: whether there is an edge, its slot, and the node at its other end.
// stays: the definition `reach`, under the theorems, gives this record
#[derive(Clone, Copy)]
pub struct Way {
    pub there: bool,
    pub node: usize,
    pub slot: usize,
    pub detector: bool,
}

// What a node sees in one direction.
// stays: the definition `seen`, under the theorems, gives this record
#[derive(Clone, Copy)]
pub struct Seen {
    pub there: bool,
    pub grown: bool,
    pub active: bool,
    pub pushes: bool,
    pub mark: Mark,
}

// What flooding leaves of a node.
// stays: the definition `flooded`, under the theorems, gives this record
#[derive(Clone, Copy)]
pub struct Flooded {
    pub unrooted: bool,
    pub pointer: u8,
    pub mark: Mark,
    pub busy: bool,
}

// A node after a merging step.
// stays: the definition `stepped`, under the theorems, gives this record
#[derive(Clone, Copy)]
pub struct Stepped {
    pub node: Node,
    pub busy: bool,
}

// How a run ended: at rest or not, and the count of steps made.
// stays: the definition `ran`, under the theorems, gives this record
#[derive(Clone, Copy)]
pub struct Ran {
    pub window: Window,
    pub rest: bool,
    pub count: u32,
}

// A call's answer, and the window after it.
#[derive(Clone, Copy)]
pub struct Given<A> {
    pub answer: Result<A, Refusal>,
    pub window: Window,
}

// A cluster of its own.
pub fn alone(mark: u16, defect: bool) -> Node
    ensures { result ≡ alone_of mark defect }
{
    Node {
        active: false,
        defect,
        unrooted: false,
        pointer: 0,
        mark: Mark::Root(mark),
    }
}

// Of the first k sheets, those of supplied rounds.
fn supplied(shape: Shape, next: u32, k: usize) -> usize
    ensures { result ≡ supplied_of shape.distance next k }
{
    k.min((next as usize).saturating_sub(extent::sheets(shape)))
}

// How many of a window's sheets are there.
pub fn present(shape: Shape, next: u32) -> usize
    ensures { result ≡ supplied_of shape.distance next (sheets_of shape.distance) }
{
    supplied(shape, next, extent::sheets(shape))
}

// The sheets that a pointer may lead to: those of the window, and in stage to grow the one that has just left.
fn led_to(shape: Shape, stage: Stage) -> usize
    ensures { result ≡ led_to shape.distance stage }
{
    extent::sheets(shape) + usize::from(stage == Stage::ToGrow)
}

// How many of those are of supplied rounds.
pub fn pointed(shape: Shape, stage: Stage, next: u32) -> usize
    ensures { result ≡ supplied_of shape.distance next (led_to shape.distance stage) }
{
    supplied(shape, next, led_to(shape, stage))
}
