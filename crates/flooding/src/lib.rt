// Flooding: the mark and the pointer that a merging step gives a node. It reads its neighbours as they were when the step began.
#![tactic(auto)]

ghost use Rattle.std.specs.Prelude.{◌≡◌, ◌+◌, ◌≤◌, ◌<◌, get_or};
ghost use Rattle.flat.specs.Codes.{growth_of};
ghost use Rattle.flat.specs.Rule.{scanned, flood_of};
ghost use Rattle.flat.specs.Structs.{plan_in, state_in};

use flat::{Arrays, Flood, Layout, PLANE, PLANES, RESET};

// The neighbours over open edges in the scan order: the lowest mark is taken, and a node that is not unrooted stops at one marked reset.
fn scan(
    x: usize,
    layout: &Layout,
    first: Flood,
    unrooted: bool,
    marks: &[u16; PLANE],
    edges: &[u8; PLANES],
) -> Flood
    requires le_x { (512 ≤ x) × (x < 512 + layout.now.sizes.nodes) }
    ensures { result ≡ scanned (plan_in layout.now) (λ y. get_or marks.now y 0) (λ e. growth_of (get_or edges.now e 0)) x unrooted 0 layout.now.sizes.dirs first.mark first.pointer }
{
    let mut lowest = first;
    for k in 0..layout.sizes.dirs {
        let e = layout.slot(x, k);
        if flat::is_open(edges[e]) {
            let j = layout.over(x, k);
            let v = marks[j];
            if (v == RESET) & !unrooted {
                return Flood {
                    mark: RESET,
                    pointer: 0,
                };
            }
            if v < lowest.mark {
                lowest = Flood {
                    mark: v,
                    pointer: k as u8 + 1,
                };
            }
        }
    }
    lowest
}

// A node marked reset takes its own number; any other looks at its neighbours.
pub fn flooded(x: usize, layout: &Layout, arrays: &Arrays) -> Flood
    requires le_x { (512 ≤ x) × (x < 512 + layout.now.sizes.nodes) }
    ensures value { result ≡ flood_of (plan_in layout.now) (state_in arrays.now) x }
    ensures pointer_bound { result.pointer < 32 }
{
    let v = arrays.nodes[x];
    let mark = arrays.marks[x];
    let pointer = flat::pointer(v);
    if mark == RESET {
        return Flood {
            mark: layout.table[x],
            pointer,
        };
    }
    let first = Flood { mark, pointer };
    scan(
        x,
        layout,
        first,
        flat::unrooted(v),
        &arrays.marks,
        &arrays.edges,
    )
}
