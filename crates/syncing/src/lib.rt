// Syncing: whether a node is active after a merging step, and bears a defect. It reads its neighbours as they were when the step began.
#![tactic(auto)]

ghost use Rattle.std.specs.Prelude.{◌≡◌, false, ◌&&◌, not, [], ◌+◌, ◌≤◌, ◌<◌, eqb, get_or};
ghost use Rattle.flat.specs.Codes.{defect_of, pointer_of, growth_of};
ghost use Rattle.flat.specs.Entries.{by_nodes, state_of};
ghost use Rattle.flat.specs.Rule.{arrived, active_after, defect_after};
ghost use Rattle.flat.specs.Structs.{plan_in};

use flat::{BACKS, Layout, NO_EDGE, PLANE, PLANES};

// A node with a defect sends it along its pointer.
pub fn pushes(v: u8, p: u16) -> bool
    ensures { result ≡ (defect_of v && eqb (pointer_of v) p) }
{
    flat::defect(v) & (flat::pointer(v) as u16 == p)
}

// Its pointer is not C, and it has a defect to send.
pub fn sends(v: u8) -> bool
    ensures { result ≡ (defect_of v && not (eqb (pointer_of v) 0)) }
{
    flat::defect(v) & (flat::pointer(v) != 0)
}

// Whether an odd number of defects arrives.
fn arrives(x: usize, layout: &Layout, nodes: &[u8; PLANE], edges: &[u8; PLANES]) -> bool
    requires le_x { (512 ≤ x) × (x < 512 + layout.now.sizes.nodes) }
    ensures { result ≡ arrived (plan_in layout.now) (λ y. defect_of (get_or nodes.now y 0)) (λ y. pointer_of (get_or nodes.now y 0)) (λ e. growth_of (get_or edges.now e 0)) x 0 layout.now.sizes.dirs false }
{
    let mut odd = false;
    for k in 0..layout.sizes.dirs {
        let e = layout.slot(x, k);
        if flat::growth(edges[e]) != NO_EDGE {
            let j = layout.over(x, k);
            odd ^= pushes(nodes[j], layout.table[BACKS + k]);
        }
    }
    odd
}

// A node with pointer C is active if it has a defect, any other if the node that it points to was.
pub fn active_after(x: usize, layout: &Layout, nodes: &[u8; PLANE]) -> bool
    requires le_x { (512 ≤ x) × (x < 512 + layout.now.sizes.nodes) }
    ensures { result ≡ active_after (plan_in layout.now) (by_nodes nodes.now) x }
{
    let v = nodes[x];
    let p = flat::pointer(v) as usize;
    if p == 0 {
        return flat::defect(v);
    }
    let j = layout.over(x, p - 1);
    flat::active(nodes[j])
}

// A defect stays where the pointer is C; what arrives is looked for at detectors, where some node sends.
pub fn defect_after(
    x: usize,
    layout: &Layout,
    sending: bool,
    nodes: &[u8; PLANE],
    edges: &[u8; PLANES],
) -> bool
    requires le_x { (512 ≤ x) × (x < 512 + layout.now.sizes.nodes) }
    ensures { result ≡ defect_after (plan_in layout.now) (state_of nodes.now [] edges.now) sending x }
{
    let stays = pushes(nodes[x], 0);
    if sending & (layout.sizes.bound <= layout.table[x]) {
        return stays ^ arrives(x, layout, nodes, edges);
    }
    stays
}
