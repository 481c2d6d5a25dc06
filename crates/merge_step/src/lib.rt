// One merging step over a work list: what becomes of all listed nodes is gathered first, then laid down, so that each reads the state before
// the step.
#![tactic(auto)]

ghost use Rattle.std.specs.Prelude.{◌≡◌, ℕ, ◌+◌, ◌≤◌, ◌<◌, get_or, length};
ghost use Rattle.flat.specs.Laid.{laid};
ghost use Rattle.flat.specs.Step.{Places, busy_in};
ghost use Rattle.flat.specs.Structs.{plan_in, state_in};
ghost use Rattle.node_step.specs.After.{Tells};
ghost use Rattle.node_step.specs.Words.{mark_in, node_in};
ghost use Rattle.edge_step.specs.Each.{Each};
ghost use Rattle.edge_step.specs.Listed.{list_of};
ghost use Rattle.merge_step.specs.Pass.{PassLeaves};

use flat::{Arrays, Layout, PLANE};

// What becomes of each listed node, in a word; and whether one of them is busy.
fn gather(
    sending: bool,
    layout: &Layout,
    listed: &[u16],
    arrays: &Arrays,
    words: &mut [u32; PLANE],
) -> bool
    requires count_bound { length listed.now ≤ 4608 }
    requires places { Places layout.now.sizes.nodes (length listed.now) (list_of listed.now) }
    ensures each { Each (λ i. Tells (plan_in layout.now) (state_in arrays.now) sending (list_of listed.now i)) (length listed.now) words.new }
    ensures value { result ≡ busy_in (plan_in layout.now) (state_in arrays.now) (length listed.now) (list_of listed.now) }
{
    let mut busy = false;
    for (i, &x) in listed.iter().enumerate() {
        let after = node_step::node_after(x as usize, layout, sending, arrays);
        words[i] = after.word;
        busy |= after.busy;
    }
    busy
}

// Numbers and marks of the listed nodes, from the words.
fn lay(listed: &[u16], nodes: &mut [u8; PLANE], marks: &mut [u16; PLANE], words: &[u32; PLANE])
    requires count_bound { length listed.now ≤ 4608 }
    requires by_index { (i : ℕ) → i < length listed.now → list_of listed.now i < 4608 }
    ensures nodes_after { nodes.new ≡ laid (list_of listed.now) (λ i. node_in (get_or words.now i 0)) (length listed.now) nodes.old }
    ensures marks_after { marks.new ≡ laid (list_of listed.now) (λ i. mark_in (get_or words.now i 0)) (length listed.now) marks.old }
{
    for (i, &x) in listed.iter().enumerate() {
        let w = words[i];
        nodes[x as usize] = node_step::node_in(w);
        marks[x as usize] = node_step::mark_in(w);
    }
}

// One merging step over listed nodes. The words tell which of them stir.
pub fn pass(layout: &Layout, listed: &[u16], arrays: &mut Arrays, words: &mut [u32; PLANE]) -> bool
    requires count_bound { length listed.now ≤ 4608 }
    requires places { Places layout.now.sizes.nodes (length listed.now) (list_of listed.now) }
    ensures { PassLeaves (plan_in layout.now) (state_in arrays.old) (length listed.now) (list_of listed.now) layout.now.sizes.nodes result arrays.new.nodes arrays.new.marks arrays.new.edges words.new }
{
    let sending = edge_step::flips(layout, listed, &arrays.nodes, &mut arrays.edges, words);
    let busy = gather(sending, layout, listed, arrays, words);
    lay(listed, &mut arrays.nodes, &mut arrays.marks, words);
    busy
}
