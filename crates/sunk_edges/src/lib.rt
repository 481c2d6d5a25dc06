// A round's edges on the flat machine's arrays: every kind one sheet lower, with the new sheet's on top.
#![tactic(auto)]

ghost use Rattle.std.specs.Prelude.{◌≡◌, ◌*◌, ◌≤◌, ◌<◌};
ghost use Rattle.sunk_edges.specs.Edges.{fresh_on, Sank};

use flat::{FRESH, Layout, MARGIN, NO_EDGE, PLANE, PLANES, RISES};
use shape::MAX_SHEET_NODES;

// One kind's edges of the new sheet. A kind that stays in its sheet has them there; one that goes up has none there, and those up to it one
// sheet lower, if that sheet is there too.
fn lay_kind(kind: usize, layout: &Layout, second: bool, edges: &mut [u8; PLANES])
    requires { kind < 6 }
    ensures { edges.new ≡ fresh_on layout.now.table second layout.now.sizes.sheet kind edges.old }
{
    let sheet = layout.sizes.sheet;
    let at = kind * PLANE + MARGIN;
    let from = FRESH + MAX_SHEET_NODES * kind;
    if layout.table[RISES + kind] != 1 {
        top_sheet::lay_edges(at, sheet, from, edges, &layout.table);
        return;
    }
    edges[at..at + sheet].fill(NO_EDGE);
    if second {
        top_sheet::lay_edges(at + sheet, sheet, from, edges, &layout.table);
    }
}

// Every kind's edges; second: the second sheet is there after the round.
pub fn sink_kinds(layout: &Layout, second: bool, old: &[u8; PLANES], edges: &mut [u8; PLANES])
    requires sheet_bound { 2 * layout.now.sizes.sheet ≤ layout.now.sizes.nodes }
    ensures { Sank layout.now.table second layout.now.sizes.kinds layout.now.sizes.nodes layout.now.sizes.sheet old.now edges.old edges.new }
{
    for kind in 0..layout.sizes.kinds {
        sinking::sink_edges(kind * PLANE, layout.sizes, old, edges);
        lay_kind(kind, layout, second, edges);
    }
}
