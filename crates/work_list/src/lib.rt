// The first work list of a turn.
#![tactic(auto)]

ghost use Rattle.std.specs.Prelude.{◌≡◌, true, ℕ, get_or};
ghost use Rattle.flat.specs.Codes.{growth_of};
ghost use Rattle.flat.specs.Entries.{within};
ghost use Rattle.flat.specs.Step.{list_at, Places};
ghost use Rattle.flat.specs.Structs.{plan_in};
ghost use Rattle.queue.specs.Queue.{Queue, Inside};
ghost use Rattle.work_list.specs.Work.{Worked};

use flat::{Arrays, Layout, Work};

// The ends of edges that opened, so many, are listed. Where only changes count, the nodes that were cut are added, with what lies over their open
// edges, and the new defects; else all nodes.
pub fn work_list(
    layout: &Layout,
    changes: bool,
    opened: usize,
    arrays: &Arrays,
    work: &mut Work,
) -> usize
    requires queue { Queue 0 opened work.old.lists work.old.queued }
    requires places { Places layout.now.sizes.nodes opened (list_at work.old.lists 0) }
    requires by_index { (x : ℕ) → within layout.now.sizes.nodes x ≡ true → Inside (plan_in layout.now) (λ e. growth_of (get_or arrays.now.edges e 0)) x layout.now.sizes.dirs layout.now.sizes.nodes }
    ensures worked { Worked (plan_in layout.now) layout.now.sizes.nodes layout.now.sizes.sheet changes opened arrays.now.nodes arrays.now.marks arrays.now.edges work.old.lists result work.new.lists work.new.queued }
    ensures words { work.new.words ≡ work.old.words }
{
    let Work { lists, queued, .. } = work;
    if !changes {
        return enlist::all_nodes(layout.sizes, opened, lists, queued);
    }
    let cut = enlist::push_cut(layout, opened, &arrays.marks, &arrays.edges, lists, queued);
    enlist::push_defects(layout.sizes, cut, &arrays.nodes, lists, queued)
}
