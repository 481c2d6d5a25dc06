// The work list of the next merging step: what stirs, and what lies over its open edges.
#![tactic(auto)]

ghost use Rattle.std.specs.Prelude.{◌≡◌, ◌⊎◌, ℕ, ◌+◌, ◌≤◌, ◌<◌, get_or};
ghost use Rattle.flat.specs.Codes.{growth_of};
ghost use Rattle.flat.specs.Step.{list_at, Places};
ghost use Rattle.flat.specs.Structs.{plan_in};
ghost use Rattle.node_step.specs.Words.{stir_in};
ghost use Rattle.queue.specs.Queue.{Queue, Inside};
ghost use Rattle.next_list.specs.Next.{Next};

use flat::{Layout, PLANES, Work};

// The list at `from` is taken off the queue, and the next one is written at `to`. A word tells whether its node stirs.
pub fn next_list(
    layout: &Layout,
    from: usize,
    to: usize,
    count: usize,
    edges: &[u8; PLANES],
    work: &mut Work,
) -> usize
    requires from_bound { (from ≤ 9216) × (to ≤ 9216) × ((from + 4608 ≤ to) ⊎ (to + 4608 ≤ from)) }
    requires places { Places layout.now.sizes.nodes count (list_at work.old.lists from) }
    requires by_index { (i : ℕ) → i < count → Inside (plan_in layout.now) (λ e. growth_of (get_or edges.now e 0)) (list_at work.old.lists from i) layout.now.sizes.dirs layout.now.sizes.nodes }
    requires queue { Queue from count work.old.lists work.old.queued }
    ensures next { Next (plan_in layout.now) (λ e. growth_of (get_or edges.now e 0)) layout.now.sizes.nodes (list_at work.old.lists from) (λ i. stir_in (get_or work.old.words i 0)) count to result work.old.lists work.new.lists work.new.queued }
    ensures words { work.new.words ≡ work.old.words }
{
    queue::unqueue(from, count, &work.lists, &mut work.queued);
    let mut q: usize = 0;
    for i in 0..count {
        if node_step::stir_in(work.words[i]) {
            let x = work.lists[from + i] as usize;
            q = queue::push_open(x, layout, to, q, edges, &mut work.lists, &mut work.queued);
        }
    }
    q
}
