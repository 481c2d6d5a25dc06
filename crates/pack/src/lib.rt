// A window from the machine's arrays.
#![tactic(auto)]

ghost use Rattle.std.specs.Prelude.{◌≡◌, ◌≤◌};
ghost use Rattle.steps.specs.Models.{of_model};
ghost use Rattle.flat.specs.Codes.{mark_of, node_of, growth_of, correction_of};
ghost use Rattle.flat.specs.Structs.{state_in};
ghost use Rattle.shows.specs.Shows.{shown as shown_of, window_of};
ghost use Rattle.pack.specs.Packed.{growths_on, bits_on};

use flat::{Arrays, MARGIN, NO_EDGE, PLANE, PLANES, RESET};
use plan::store;
use shape::{MAX_DETECTORS, MAX_NODES, Shape};
use window::{MAX_SLOTS, Mark, Node, Stage, Window};

fn mark_of(m: u16) -> Mark
    ensures { result ≡ mark_of m }
{
    if m == RESET {
        Mark::Reset
    } else {
        Mark::Root(m)
    }
}

fn node_of(v: u8, m: u16) -> Node
    ensures { result ≡ node_of v m }
{
    Node {
        active: flat::active(v),
        defect: flat::defect(v),
        unrooted: flat::unrooted(v),
        pointer: flat::pointer(v),
        mark: mark_of(m),
    }
}

// What a window says of an edge's growth: 0 where there is none.
fn shown(v: u8) -> u8
    ensures { result ≡ shown_of (growth_of v) }
{
    match flat::growth(v) {
        NO_EDGE => 0,
        growth => growth,
    }
}

// The growth and the correction bits of the edges, kind by kind, in the slots of a window of n nodes.
fn edge_slots(
    model: u8,
    n: usize,
    edges: &[u8; PLANES],
    growth: &mut [u8; MAX_SLOTS],
    correction: &mut [bool; MAX_SLOTS],
)
    requires { n ≤ 3600 }
    ensures growth { growth.new ≡ growths_on (of_model model) n edges.now growth.old }
    ensures correction { correction.new ≡ bits_on (of_model model) n edges.now correction.old }
{
    for kind in 0..steps::kinds(model) as usize {
        let x = kind * PLANE + MARGIN;
        store(n * kind, n, |i| shown(edges[x + i]), growth);
        store(n * kind, n, |i| flat::corrected(edges[x + i]), correction);
    }
}

// The window that the arrays stand for.
pub fn pack(
    shape: Shape,
    stage: Stage,
    next: u32,
    measured: [bool; MAX_DETECTORS],
    arrays: &Arrays,
) -> Window
    ensures { result ≡ window_of (of_model shape.model) shape stage next measured (state_in arrays.now) }
{
    let n = extent::nodes(shape);
    let mut nodes = [window::alone(0, false); MAX_NODES];
    store(
        0,
        n,
        |g| node_of(arrays.nodes[MARGIN + g], arrays.marks[MARGIN + g]),
        &mut nodes,
    );
    let mut growth = [0; MAX_SLOTS];
    let mut correction = [false; MAX_SLOTS];
    edge_slots(shape.model, n, &arrays.edges, &mut growth, &mut correction);
    Window {
        shape,
        stage,
        next,
        nodes,
        growth,
        correction,
        measured,
    }
}
