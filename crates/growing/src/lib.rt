// Grow on the flat machine's arrays: the edges of active nodes gain halves, and bottom nodes whose pointer falls are cut.
#![tactic(auto)]

ghost use Rattle.std.specs.Prelude.{◌≡◌, true, false, ◌+◌, ◌-◌, ◌≤◌, ◌<◌, get_or, eqb};
ghost use Rattle.window.specs.Lists.{bit};
ghost use Rattle.flat.specs.Codes.{growth_of};
ghost use Rattle.flat.specs.Entries.{within, over_by};
ghost use Rattle.flat.specs.Plan.{plan_of};
ghost use Rattle.flat.specs.Step.{active_at, Places};
ghost use Rattle.flat.specs.Stored.{stored};
ghost use Rattle.flat.specs.Structs.{plan_in};
ghost use Rattle.queue.specs.Queue.{Queue};
ghost use Rattle.growing.specs.Grown.{Actives, hits_in, edges_of, hits_of, Leads, Raised, cut_node, cut_mark};

use flat::{ACTIVE, FALLS, LISTS, Layout, MARGIN, PLANE, PLANES, RESET, Sizes, TABLE};

// Nodes that are looked at together for an active one, and bottom nodes for a pointer.
const PART_NODES: usize = 64;

const STRIP_NODES: usize = 16;

// The active nodes of a part, behind those that are listed.
fn list_part(
    first: usize,
    n: usize,
    count: usize,
    nodes: &[u8; PLANE],
    lists: &mut [u16; LISTS],
) -> usize
    requires n_bound { first + n ≤ 3600 }
    requires actives { Actives first nodes.now count lists.old lists.old }
    ensures { Actives (first + n) nodes.now result lists.old lists.new }
{
    let mut q = count;
    for i in 0..n {
        let x = MARGIN + first + i;
        if flat::active(nodes[x]) {
            lists[ACTIVE + q] = x as u16;
            q += 1;
        }
    }
    q
}

// The active nodes, in rising order; a part with none is passed at once. The last part may reach into the margin behind the nodes.
pub fn list_active(z: Sizes, nodes: &[u8; PLANE], lists: &mut [u16; LISTS]) -> usize
    requires { z.nodes ≤ 3600 }
    ensures { Actives z.nodes nodes.now result lists.old lists.new }
{
    let mut q: usize = 0;
    for first in (0..z.nodes).step_by(PART_NODES) {
        let at = MARGIN + first;
        if flat::any_of(&nodes[at..at + PART_NODES], flat::active) {
            q = list_part(first, PART_NODES.min(z.nodes - first), q, nodes, lists);
        }
    }
    q
}

// The edge of an active node in a direction gains a half, if it is there and not full; both ends of an edge that opens are pushed.
fn grow_edge(
    x: usize,
    k: usize,
    layout: &Layout,
    count: usize,
    edges: &mut [u8; PLANES],
    lists: &mut [u16; LISTS],
    queued: &mut [bool; PLANE],
) -> usize
    requires k_lt_dirs { (k < layout.now.sizes.dirs) × (within layout.now.sizes.nodes x ≡ true) }
    requires queue { Queue 0 count lists.old queued.old }
    requires leads { Leads (plan_in layout.now) layout.now.sizes.nodes (λ e. growth_of (get_or edges.old e 0)) }
    ensures { Raised (plan_in layout.now) layout.now.sizes.nodes (λ e. bit (eqb (over_by x ((plan_in layout.now).slot k)) e)) edges.old edges.new count result lists.old lists.new queued.new }
{
    let e = layout.slot(x, k);
    let v = edges[e];
    let t = flat::growth(v);
    if 2 <= t {
        return count;
    }
    edges[e] = v + 1;
    if t == 0 {
        return count;
    }
    let q = queue::push(x, 0, count, lists, queued);
    queue::push(layout.over(x, k), 0, q, lists, queued)
}

// The edges of all active nodes in a direction.
fn grow_way(
    k: usize,
    layout: &Layout,
    listed: usize,
    count: usize,
    edges: &mut [u8; PLANES],
    lists: &mut [u16; LISTS],
    queued: &mut [bool; PLANE],
) -> usize
    requires k_lt_dirs { (k < layout.now.sizes.dirs) × (listed ≤ 3600) }
    requires queue { Queue 0 count lists.old queued.old }
    requires places { Places layout.now.sizes.nodes listed (active_at lists.old) }
    requires leads { Leads (plan_in layout.now) layout.now.sizes.nodes (λ e. growth_of (get_or edges.old e 0)) }
    ensures { Raised (plan_in layout.now) layout.now.sizes.nodes (hits_in (edges_of (plan_in layout.now) (active_at lists.old) k) listed) edges.old edges.new count result lists.old lists.new queued.new }
{
    let mut q = count;
    for i in 0..listed {
        let x = lists[ACTIVE + i] as usize;
        q = grow_edge(x, k, layout, q, edges, lists, queued);
    }
    q
}

// The edges of all active nodes in every direction.
pub fn grow_ways(
    layout: &Layout,
    listed: usize,
    edges: &mut [u8; PLANES],
    lists: &mut [u16; LISTS],
    queued: &mut [bool; PLANE],
) -> usize
    requires listed_bound { listed ≤ 3600 }
    requires queue { Queue 0 0 lists.old queued.old }
    requires places { Places layout.now.sizes.nodes listed (active_at lists.old) }
    requires leads { Leads (plan_in layout.now) layout.now.sizes.nodes (λ e. growth_of (get_or edges.old e 0)) }
    ensures { Raised (plan_in layout.now) layout.now.sizes.nodes (hits_of (plan_in layout.now) (active_at lists.old) listed layout.now.sizes.dirs) edges.old edges.new 0 result lists.old lists.new queued.new }
{
    let mut q: usize = 0;
    for k in 0..layout.sizes.dirs {
        q = grow_way(k, layout, listed, q, edges, lists, queued);
    }
    q
}

// Nodes of a strip whose pointer falls get pointer C and mark reset.
fn cut_strip(
    at: usize,
    n: usize,
    nodes: &mut [u8; PLANE],
    marks: &mut [u16; PLANE],
    table: &[u16; TABLE],
)
    requires { at + n ≤ 4608 }
    ensures nodes_after { nodes.new ≡ stored at (λ i. cut_node (λ p. eqb (get_or table.now (128 + p) 0) 1) (get_or nodes.old (at + i) 0)) n nodes.old }
    ensures marks_after { marks.new ≡ stored at (λ i. cut_mark (λ p. eqb (get_or table.now (128 + p) 0) 1) (get_or nodes.old (at + i) 0) (get_or marks.old (at + i) 0)) n marks.old }
{
    for i in 0..n {
        let v = nodes[at + i];
        if table[FALLS + flat::pointer(v) as usize] == 1 {
            nodes[at + i] = v % 8;
            marks[at + i] = RESET;
        }
    }
}

// Bottom nodes whose pointer falls get pointer C and mark reset; a strip whose pointers are all C is passed at once. The last strip may reach
// into the margin behind the nodes.
pub fn cut(z: Sizes, nodes: &mut [u8; PLANE], marks: &mut [u16; PLANE], table: &[u16; TABLE])
    requires nodes_bound { (z.nodes ≤ 3600) × (z.sheet ≤ z.nodes) }
    requires table_value { (plan_of z table.now).falls 0 ≡ false }
    ensures nodes_after { nodes.new ≡ stored (512 + z.nodes - z.sheet) (λ i. cut_node (plan_of z table.now).falls (get_or nodes.old (512 + z.nodes - z.sheet + i) 0)) z.sheet nodes.old }
    ensures marks_after { marks.new ≡ stored (512 + z.nodes - z.sheet) (λ i. cut_mark (plan_of z table.now).falls (get_or nodes.old (512 + z.nodes - z.sheet + i) 0) (get_or marks.old (512 + z.nodes - z.sheet + i) 0)) z.sheet marks.old }
{
    let bottom = MARGIN + z.nodes - z.sheet;
    for i in (0..z.sheet).step_by(STRIP_NODES) {
        let at = bottom + i;
        if flat::any_of(&nodes[at..at + STRIP_NODES], |v| 8 <= v) {
            cut_strip(at, STRIP_NODES.min(z.sheet - i), nodes, marks, table);
        }
    }
}
