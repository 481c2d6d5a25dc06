// The correction bits that a merging step turns: of every edge along which a listed node sends its defect. All are gathered first, then laid
// down. A node may be listed twice.
#![tactic(auto)]

ghost use Rattle.std.specs.Prelude.{◌≡◌, true, [], ℕ, ◌+◌, ◌≤◌, ◌<◌, get_or, length};
ghost use Rattle.flat.specs.Entries.{state_of};
ghost use Rattle.flat.specs.Laid.{laid};
ghost use Rattle.flat.specs.Rule.{sender};
ghost use Rattle.flat.specs.Step.{Places};
ghost use Rattle.flat.specs.Structs.{plan_in};
ghost use Rattle.edge_step.specs.Edges.{TurnedEdge, edge_in, number_in, Turn, Turns, Flipped};
ghost use Rattle.edge_step.specs.Listed.{list_of};

use flat::{BACKS, Layout, NO_EDGE, PLANE, PLANES};

// An edge's number after the pushes of its two ends.
fn turned(v: u8, mine: bool, theirs: bool) -> u8
    ensures { TurnedEdge v mine theirs result }
{
    let g = flat::growth(v);
    if g == NO_EDGE {
        return v;
    }
    flat::edge(g, (flat::corrected(v) ^ mine) ^ theirs)
}

// The edge along which a node sends, in a word: 256 times its place, and its number after the step. The node over it may send back.
fn turn_along(x: usize, layout: &Layout, nodes: &[u8; PLANE], edges: &[u8; PLANES]) -> u32
    requires le_x { (512 ≤ x) × (x < 512 + layout.now.sizes.nodes) }
    requires x_value { sender (plan_in layout.now) (state_of nodes.now [] edges.now) x ≡ true }
    ensures { Turn (plan_in layout.now) (state_of nodes.now [] edges.now) x result }
{
    let k = flat::pointer(nodes[x]) as usize - 1;
    let e = layout.slot(x, k);
    let j = layout.over(x, k);
    let theirs = syncing::pushes(nodes[j], layout.table[BACKS + k]);
    256 * (e as u32) + u32::from(turned(edges[e], true, theirs))
}

// The words of the listed nodes that send, and how many there are.
fn gather_turns(
    layout: &Layout,
    listed: &[u16],
    nodes: &[u8; PLANE],
    edges: &[u8; PLANES],
    words: &mut [u32; PLANE],
) -> usize
    requires count_bound { length listed.now ≤ 4608 }
    requires places { Places layout.now.sizes.nodes (length listed.now) (list_of listed.now) }
    ensures { Turns (plan_in layout.now) (state_of nodes.now [] edges.now) (list_of listed.now) (length listed.now) result words.new }
{
    let mut made = 0;
    for &x in listed {
        let x = x as usize;
        if syncing::sends(nodes[x]) {
            words[made] = turn_along(x, layout, nodes, edges);
            made += 1;
        }
    }
    made
}

// They are laid down.
fn lay_turns(turns: &[u32], edges: &mut [u8; PLANES])
    requires by_index { (j : ℕ) → j < length turns.now → edge_in (list_of turns.now j) < 27648 }
    ensures { edges.new ≡ laid (λ j. edge_in (list_of turns.now j)) (λ j. number_in (list_of turns.now j)) (length turns.now) edges.old }
{
    for &w in turns {
        edges[(w / 256) as usize] = (w % 256) as u8;
    }
}

// The correction bits of the edges along which listed nodes send, and whether some node does.
pub fn flips(
    layout: &Layout,
    listed: &[u16],
    nodes: &[u8; PLANE],
    edges: &mut [u8; PLANES],
    words: &mut [u32; PLANE],
) -> bool
    requires count_bound { length listed.now ≤ 4608 }
    requires places { Places layout.now.sizes.nodes (length listed.now) (list_of listed.now) }
    ensures flipped { Flipped (plan_in layout.now) (state_of nodes.now [] edges.old) (length listed.now) (list_of listed.now) result edges.new }
    ensures words_len { length words.new ≡ 4608 }
{
    let made = gather_turns(layout, listed, nodes, edges, words);
    lay_turns(&words[..made], edges);
    0 < made
}
