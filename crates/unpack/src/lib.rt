// A window as the machine's arrays.
#![tactic(auto)]

ghost use Rattle.std.specs.Prelude.{◌≡◌, true, ℕ, ◌+◌, ◌-◌, ◌*◌, ◌≤◌, ◌<◌, get_or};
ghost use Rattle.steps.specs.Models.{of_model};
ghost use Rattle.window.specs.Lists.{every};
ghost use Rattle.window.specs.Formed.{well_formed};
ghost use Rattle.flat.specs.Codes.{node_code, mark_code};
ghost use Rattle.flat.specs.Entries.{entry};
ghost use Rattle.plan.specs.Passes.{passes};
ghost use Rattle.unpack.specs.Edges.{edge_by, kind_on};
ghost use Rattle.unpack.specs.Unpacked.{Unpacked};
ghost use Rattle.unpack.specs.Rides.{rides_by, rides_in};

use flat::{Arrays, FALLS, FRESH, Layout, MARGIN, NO_EDGE, PLANE, PLANES, RESET, RISES, Sizes};
use plan::{ShapeLayout, store};
use shape::MAX_SHEET_NODES;
use window::{Mark, Node, Window};

fn node_code(node: Node) -> u8
    requires { node.pointer < 32 }
    ensures { result ≡ node_code node.active node.defect node.unrooted node.pointer }
{
    flat::node(node.active, node.defect, node.unrooted, node.pointer)
}

fn mark_code(mark: Mark) -> u16
    ensures { result ≡ mark_code mark }
{
    match mark {
        Mark::Reset => RESET,
        Mark::Root(m) => m,
    }
}

// An edge that the table says is there, or none.
fn edge_by(fresh: u16, growth: u8, correction: bool) -> u8
    ensures { result ≡ edge_by fresh growth correction }
{
    if fresh == 0 {
        flat::edge(growth % 4, correction)
    } else {
        NO_EDGE
    }
}

// A kind's edges, of the sheets that are there; one that goes up has none in the top sheet.
fn edges_kind(w: &Window, layout: &Layout, there: usize, kind: usize, edges: &mut [u8; PLANES])
    requires { (kind < 6) × (there * layout.now.sizes.sheet ≤ layout.now.sizes.nodes) × (get_or layout.now.table (160 + kind) 0 ≤ 1) × (there ≤ 15) }
    ensures { edges.new ≡ kind_on layout.now.sizes.nodes layout.now.sizes.sheet there w.now.growth w.now.correction layout.now.table kind edges.old }
{
    let n = layout.sizes.sheet;
    let first = layout.table[RISES + kind] as usize;
    let fresh = FRESH + MAX_SHEET_NODES * kind;
    let slots = layout.sizes.nodes * kind + first * n;
    let cells = kind * PLANE + MARGIN + first * n;
    for k in 0..there.saturating_sub(first) {
        let e = slots + k * n;
        store(
            cells + k * n,
            n,
            |i| edge_by(
                layout.table[fresh + i],
                w.growth[e + i],
                w.correction[e + i],
            ),
            edges,
        );
    }
}

fn edges_kinds(w: &Window, layout: &Layout, there: usize, edges: &mut [u8; PLANES])
    requires { (there * layout.now.sizes.sheet ≤ layout.now.sizes.nodes) × ((kind : ℕ) → kind < layout.now.sizes.kinds → get_or layout.now.table (160 + kind) 0 ≤ 1) × (there ≤ 15) }
    ensures { edges.new ≡ passes (kind_on layout.now.sizes.nodes layout.now.sizes.sheet there w.now.growth w.now.correction layout.now.table) layout.now.sizes.kinds edges.old }
{
    for kind in 0..layout.sizes.kinds {
        edges_kind(w, layout, there, kind, edges);
    }
}

// The arrays of a window.
pub fn unpack(w: &Window, laid: &ShapeLayout) -> Arrays
    requires w_value { well_formed (of_model w.now.shape.model) w.now ≡ true }
    requires shape_value { w.now.shape ≡ laid.now.shape }
    ensures { Unpacked (of_model w.now.shape.model) w.now result.nodes result.marks result.edges }
{
    let mut arrays = Arrays::empty();
    let n = laid.layout.sizes.nodes;
    store(MARGIN, n, |g| node_code(w.nodes[g]), &mut arrays.nodes);
    store(MARGIN, n, |g| mark_code(w.nodes[g].mark), &mut arrays.marks);
    edges_kinds(
        w,
        &laid.layout,
        window::present(w.shape, w.next),
        &mut arrays.edges,
    );
    arrays
}

// A pointer that goes over an open edge, or is C.
fn rides_at(x: usize, p: usize, layout: &Layout, edges: &[u8; PLANES]) -> bool
    requires { (512 ≤ x) × (x < 512 + layout.now.sizes.nodes) × (p < 32) }
    ensures { result ≡ rides_by edges.now layout.now.table x p }
{
    p == 0 || flat::is_open(edges[layout.slot(x, p - 1)])
}

// Every pointer rides; in stage to grow those that fall out at the bottom are excepted.
pub fn rides(layout: &Layout, leaving: bool, arrays: &Arrays) -> bool
    ensures { result ≡ every layout.now.sizes.nodes (λ g. rides_in layout.now.sizes leaving arrays.now.nodes arrays.now.edges layout.now.table (entry g)) }
{
    let Sizes { nodes, sheet, .. } = layout.sizes;
    let bottom = MARGIN + nodes - sheet;
    (MARGIN..MARGIN + nodes).all(|x| {
        let p = flat::pointer(arrays.nodes[x]) as usize;
        let out = leaving && bottom <= x && layout.table[FALLS + p] == 1;
        out || rides_at(x, p, layout, &arrays.edges)
    })
}
