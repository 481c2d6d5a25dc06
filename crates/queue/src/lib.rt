// The list of nodes that a merging step has to look at: each once, by a flag for each node.
#![tactic(auto)]

ghost use Rattle.std.specs.Prelude.{ℕ, ◌+◌, ◌≤◌, ◌<◌, get_or};
ghost use Rattle.flat.specs.Codes.{growth_of};
ghost use Rattle.flat.specs.Step.{list_at};
ghost use Rattle.flat.specs.Structs.{plan_in};
ghost use Rattle.queue.specs.Queue.{Queue, Empty, Pushed, Opened};

use flat::{LISTS, Layout, PLANE, PLANES};

pub fn push(
    x: usize,
    from: usize,
    count: usize,
    lists: &mut [u16; LISTS],
    queued: &mut [bool; PLANE],
) -> usize
    requires x_bound { (x < 4608) × (from ≤ 9216) }
    requires queue { Queue from count lists.old queued.old }
    ensures { Pushed x from count result lists.old lists.new queued.new }
{
    if queued[x] {
        return count;
    }
    queued[x] = true;
    lists[from + count] = x as u16;
    count + 1
}

// A node and what lies over its open edges.
pub fn push_open(
    x: usize,
    layout: &Layout,
    from: usize,
    count: usize,
    edges: &[u8; PLANES],
    lists: &mut [u16; LISTS],
    queued: &mut [bool; PLANE],
) -> usize
    requires le_x { (512 ≤ x) × (x < 512 + layout.now.sizes.nodes) × (from ≤ 9216) }
    requires queue { Queue from count lists.old queued.old }
    ensures { Opened (plan_in layout.now) (λ e. growth_of (get_or edges.now e 0)) x layout.now.sizes.dirs from count result lists.old lists.new queued.new }
{
    let mut q = push(x, from, count, lists, queued);
    for k in 0..layout.sizes.dirs {
        if flat::is_open(edges[layout.slot(x, k)]) {
            q = push(layout.over(x, k), from, q, lists, queued);
        }
    }
    q
}

// The list's nodes are no longer queued.
pub fn unqueue(from: usize, count: usize, lists: &[u16; LISTS], queued: &mut [bool; PLANE])
    requires from_bound { from ≤ 9216 }
    requires by_index { (i : ℕ) → i < count → list_at lists.now from i < 4608 }
    requires queue { Queue from count lists.now queued.old }
    ensures { Empty queued.new }
{
    for x in &lists[from..from + count] {
        queued[*x as usize] = false;
    }
}
