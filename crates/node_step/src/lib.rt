// What one merging step makes of a node, in a word: syncing and flooding together.
#![tactic(auto)]

ghost use Rattle.std.specs.Prelude.{◌≡◌, ◌+◌, ◌≤◌, ◌<◌};
ghost use Rattle.flat.specs.Rule.{busy_at};
ghost use Rattle.flat.specs.Structs.{plan_in, state_in};
ghost use Rattle.node_step.specs.Words.{mark_in, node_in, stir_in, Holds};
ghost use Rattle.node_step.specs.After.{Joined, Tells};

use flat::{Arrays, Flood, Layout, RESET};

// The word that holds what becomes of a node, and whether the node is busy.
#[derive(Clone, Copy)]
pub struct After {
    pub word: u32,
    pub busy: bool,
}

// The word of a mark, a node's number, and whether it stirs.
fn word(mark: u16, node: u8, stir: bool) -> u32
    ensures { Holds mark node stir result }
{
    u32::from(mark) + 65536 * u32::from(node) + 16777216 * u32::from(stir)
}

pub fn mark_in(w: u32) -> u16
    ensures { result ≡ mark_in w }
{
    (w % 65536) as u16
}

pub fn node_in(w: u32) -> u8
    ensures { result ≡ node_in w }
{
    (w / 65536 % 256) as u8
}

pub fn stir_in(w: u32) -> bool
    ensures { result ≡ stir_in w }
{
    16777216 <= w
}

// From a node's byte and mark, what flooding gives, and whether it is active and bears a defect afterwards.
fn joined(v: u8, m: u16, f: Flood, lit: bool, left: bool) -> After
    requires { f.pointer < 32 }
    ensures { Joined v m f.mark f.pointer lit left result.word result.busy }
{
    let busy = (f.mark != m) | syncing::sends(v) | (lit ^ flat::active(v));
    let stir = busy | (left ^ flat::defect(v));
    let unrooted = flat::unrooted(v) | (m == RESET);
    let node = flat::node(lit, left, unrooted, f.pointer);
    After {
        word: word(f.mark, node, stir),
        busy,
    }
}

// What becomes of a node in one step.
pub fn node_after(x: usize, layout: &Layout, sending: bool, arrays: &Arrays) -> After
    requires le_x { (512 ≤ x) × (x < 512 + layout.now.sizes.nodes) }
    ensures tells { Tells (plan_in layout.now) (state_in arrays.now) sending x result.word }
    ensures busy_value { result.busy ≡ busy_at (plan_in layout.now) (state_in arrays.now) x }
{
    let f = flooding::flooded(x, layout, arrays);
    let lit = syncing::active_after(x, layout, &arrays.nodes);
    let left = syncing::defect_after(x, layout, sending, &arrays.nodes, &arrays.edges);
    joined(arrays.nodes[x], arrays.marks[x], f, lit, left)
}
