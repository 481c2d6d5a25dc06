// Whether one node and its slots are well-formed.
#![tactic(auto)]

ghost use Rattle.std.specs.Prelude.{◌≡◌, ◌+◌, ◌*◌, ◌≤◌, ◌<◌, length};
ghost use Rattle.shape.specs.Sizes.{sheets_of, nodes_in, max_nodes};
ghost use Rattle.steps.specs.Steps.{namer};
ghost use Rattle.steps.specs.Models.{of_model};
ghost use Rattle.walk.specs.Walk.{Stands};
ghost use Rattle.window.specs.Lists.{every};
ghost use Rattle.window.specs.Window.{reach};
ghost use Rattle.window.specs.Formed.{is_fresh, mark_fits, pointer_fits, node_fits, slot_fits, slot_by};

use shape::{Place, Shape};
use window::{Mark, Node, Stage};

// Marks are numbers of nodes, reset only in stage merging.
fn mark_fits(stage: Stage, marks: usize, mark: Mark) -> bool
    ensures { result ≡ mark_fits stage marks mark }
{
    match mark {
        Mark::Reset => stage == Stage::Merging,
        Mark::Root(m) => (m as usize) < marks,
    }
}

// How many numbers of nodes there are, the ghost sheet's too.
pub fn numbers(shape: Shape) -> usize
    ensures { result ≡ nodes_in shape.height shape.distance (sheets_of shape.distance + 1) }
{
    (shape.height as usize * (shape.distance as usize + 1)) * (extent::sheets(shape) + 1)
}

// Pointers go along edges between so many sheets.
fn pointer_fits(shape: Shape, sheets: usize, place: Place, pointer: u8) -> bool
    ensures { result ≡ pointer_fits (of_model shape.model) shape.height shape.distance sheets place pointer }
{
    pointer == 0 || joins::joined(shape, sheets, pointer, place)
}

// A node in its fresh state, its own number given.
pub fn is_fresh(own: u16, node: Node) -> bool
    ensures { result ≡ is_fresh own node }
{
    !node.active
        & !node.defect
        & !node.unrooted
        & (node.pointer == 0)
        & (node.mark == Mark::Root(own))
}

// A node, where so many sheets are there and pointers may lead to so many; an absent one keeps its fresh state. Most point to C and have no defect: the
// place is not asked for them.
#[tactic(auto, unfolding(window::specs::Formed::node_fits, window::specs::Formed::pointer_fits))]
pub fn node_fits(
    shape: Shape,
    stage: Stage,
    marks: usize,
    there: usize,
    led: usize,
    place: Place,
    g: usize,
    node: Node,
) -> bool
    requires stands { Stands shape.height shape.distance place g }
    requires marks_value { marks ≡ nodes_in shape.height shape.distance (sheets_of shape.distance + 1) }
    ensures { result ≡ node_fits (of_model shape.model) stage shape.height shape.distance there led place node }
{
    if there <= place.depth as usize {
        return is_fresh(walk::number(shape, place, g), node);
    }
    mark_fits(stage, marks, node.mark)
        && ((node.pointer == 0) & !node.defect
            || pointer_fits(shape, led, place, node.pointer)
                && !(node.defect & extent::is_boundary(shape, place.column)))
}

// Growth is at most 2, and nothing stands in a slot without an edge: the slot of the edge of a kind that the node at a place names. Most slots are
// empty: no step is taken for them.
fn slot_fits(
    shape: Shape,
    sheets: usize,
    place: Place,
    kind: u8,
    halves: u8,
    correction: bool,
) -> bool
    ensures { result ≡ slot_fits (reach (of_model shape.model) shape.height shape.distance sheets (namer (of_model shape.model) kind) place).there halves correction }
{
    (halves == 0) & !correction
        || (halves <= 2) & joins::joined(shape, sheets, steps::namer(shape.model, kind), place)
}

// The slots of node g, one a kind, of a window of n nodes.
pub fn slots_fit(
    shape: Shape,
    sheets: usize,
    n: usize,
    place: Place,
    g: usize,
    growth: &[u8],
    correction: &[bool],
) -> bool
    requires g_lt_n { (g < n) × (n ≤ max_nodes) }
    requires n_in_bounds { ((of_model shape.model).kinds * n ≤ length growth.now) × ((of_model shape.model).kinds * n ≤ length correction.now) }
    ensures { result ≡ every (of_model shape.model).kinds (slot_by (of_model shape.model) shape.height shape.distance sheets n place g growth.now correction.now) }
{
    for kind in 0..steps::kinds(shape.model) {
        let e = n * kind as usize + g;
        if !slot_fits(shape, sheets, place, kind, growth[e], correction[e]) {
            return false;
        }
    }
    true
}
