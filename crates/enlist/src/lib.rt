// What the first work list of a turn is made of: the nodes that were cut, with what lies over their open edges, and the new defects; or all nodes.
#![tactic(auto)]

ghost use Rattle.std.specs.Prelude.{◌≡◌, true, ℕ, ◌+◌, ◌-◌, ◌≤◌, ◌<◌, eqb, get_or};
ghost use Rattle.flat.specs.Codes.{defect_of, growth_of};
ghost use Rattle.flat.specs.Entries.{within};
ghost use Rattle.flat.specs.Step.{list_at, Places};
ghost use Rattle.flat.specs.Structs.{plan_in};
ghost use Rattle.queue.specs.Queue.{Queue, Inside};
ghost use Rattle.enlist.specs.Enlisted.{Enlisted, Spread};

use flat::{LISTS, Layout, MARGIN, PLANE, PLANES, RESET, Sizes};

// Nodes that are looked at together for a defect.
const PART_NODES: usize = 32;

// All nodes.
pub fn all_nodes(
    z: Sizes,
    count: usize,
    lists: &mut [u16; LISTS],
    queued: &mut [bool; PLANE],
) -> usize
    requires nodes_bound { z.nodes ≤ 3600 }
    requires queue { Queue 0 count lists.old queued.old }
    requires places { Places z.nodes count (list_at lists.old 0) }
    ensures { Enlisted z.nodes count lists.old (λ i. true) (λ i. 512 + i) z.nodes result lists.new queued.new }
{
    let mut q = count;
    for i in 0..z.nodes {
        q = queue::push(MARGIN + i, 0, q, lists, queued);
    }
    q
}

// Nodes of a part that are marked reset, with what lies over their open edges.
fn push_reset(
    at: usize,
    n: usize,
    layout: &Layout,
    count: usize,
    marks: &[u16; PLANE],
    edges: &[u8; PLANES],
    lists: &mut [u16; LISTS],
    queued: &mut [bool; PLANE],
) -> usize
    requires le_at { (512 ≤ at) × (at + n ≤ 512 + layout.now.sizes.nodes) }
    requires queue { Queue 0 count lists.old queued.old }
    requires places { Places layout.now.sizes.nodes count (list_at lists.old 0) }
    requires by_index { (x : ℕ) → within layout.now.sizes.nodes x ≡ true → Inside (plan_in layout.now) (λ e. growth_of (get_or edges.now e 0)) x layout.now.sizes.dirs layout.now.sizes.nodes }
    ensures { Spread (plan_in layout.now) (λ e. growth_of (get_or edges.now e 0)) layout.now.sizes.nodes count lists.old (λ i. eqb (get_or marks.now (at + i) 0) 65535) (λ i. at + i) n result lists.new queued.new }
{
    let mut q = count;
    for i in 0..n {
        let x = at + i;
        if marks[x] == RESET {
            q = queue::push_open(x, layout, 0, q, edges, lists, queued);
        }
    }
    q
}

// The bottom sheet's nodes that were cut: no other mark is reset when a turn begins. Most rounds have none.
pub fn push_cut(
    layout: &Layout,
    count: usize,
    marks: &[u16; PLANE],
    edges: &[u8; PLANES],
    lists: &mut [u16; LISTS],
    queued: &mut [bool; PLANE],
) -> usize
    requires queue { Queue 0 count lists.old queued.old }
    requires places { Places layout.now.sizes.nodes count (list_at lists.old 0) }
    requires by_index { (x : ℕ) → within layout.now.sizes.nodes x ≡ true → Inside (plan_in layout.now) (λ e. growth_of (get_or edges.now e 0)) x layout.now.sizes.dirs layout.now.sizes.nodes }
    ensures { Spread (plan_in layout.now) (λ e. growth_of (get_or edges.now e 0)) layout.now.sizes.nodes count lists.old (λ i. eqb (get_or marks.now (512 + layout.now.sizes.nodes - layout.now.sizes.sheet + i) 0) 65535) (λ i. 512 + layout.now.sizes.nodes - layout.now.sizes.sheet + i) layout.now.sizes.sheet result lists.new queued.new }
{
    let sheet = layout.sizes.sheet;
    let bottom = MARGIN + layout.sizes.nodes - sheet;
    if !flat::any_of(&marks[bottom..bottom + sheet], |m| m == RESET) {
        return count;
    }
    push_reset(bottom, sheet, layout, count, marks, edges, lists, queued)
}

// Nodes of a part that bear a defect.
fn push_hot(
    at: usize,
    n: usize,
    count: usize,
    nodes: &[u8; PLANE],
    lists: &mut [u16; LISTS],
    queued: &mut [bool; PLANE],
) -> usize
    requires le_at { (512 ≤ at) × (at + n ≤ 4608) }
    requires queue { Queue 0 count lists.old queued.old }
    ensures { (m : ℕ) → at + n ≤ 512 + m → Places m count (list_at lists.old 0) → Enlisted m count lists.old (λ i. defect_of (get_or nodes.now (at + i) 0)) (λ i. at + i) n result lists.new queued.new }
{
    let mut q = count;
    for i in 0..n {
        let x = at + i;
        if flat::defect(nodes[x]) {
            q = queue::push(x, 0, q, lists, queued);
        }
    }
    q
}

// The new sheet's defects: parts without one are passed over.
pub fn push_defects(
    z: Sizes,
    count: usize,
    nodes: &[u8; PLANE],
    lists: &mut [u16; LISTS],
    queued: &mut [bool; PLANE],
) -> usize
    requires nodes_bound { (z.nodes ≤ 3600) × (z.sheet ≤ z.nodes) }
    requires queue { Queue 0 count lists.old queued.old }
    requires places { Places z.nodes count (list_at lists.old 0) }
    ensures { Enlisted z.nodes count lists.old (λ i. defect_of (get_or nodes.now (512 + i) 0)) (λ i. 512 + i) z.sheet result lists.new queued.new }
{
    let mut q = count;
    for first in (0..z.sheet).step_by(PART_NODES) {
        let n = PART_NODES.min(z.sheet - first);
        if !leave::is_quiet(MARGIN + first, n, nodes) {
            q = push_hot(MARGIN + first, n, q, nodes, lists, queued);
        }
    }
    q
}
