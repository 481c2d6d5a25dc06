// Grow on the machine's arrays.
#![tactic(auto)]

ghost use Rattle.std.specs.Prelude.{◌≡◌};
ghost use Rattle.flat.specs.Entries.{Long};
ghost use Rattle.flat.specs.Structs.{plan_in, state_in};
ghost use Rattle.queue.specs.Queue.{Empty};
ghost use Rattle.shows.specs.Grown.{Grows};
ghost use Rattle.grow_step.specs.Standing.{Standing};
ghost use Rattle.grow_step.specs.Openings.{Openings};

use flat::{Arrays, Layout, Work};

// Every edge gains a half for each active end, and bottom nodes whose pointer falls are cut. Both ends of every edge that opens are put on the
// work list at 0; the active nodes stand behind the two work lists.
pub fn grow(layout: &Layout, arrays: &mut Arrays, work: &mut Work) -> usize
    requires none_queued { Empty work.old.queued }
    requires standing { Standing (plan_in layout.now) layout.now.sizes.nodes layout.now.sizes.sheet (state_in arrays.old) }
    ensures long { Long arrays.new.nodes arrays.new.marks arrays.new.edges }
    ensures grows { Grows (plan_in layout.now) layout.now.sizes.nodes layout.now.sizes.sheet (state_in arrays.old) (state_in arrays.new) }
    ensures openings { Openings (plan_in layout.now) layout.now.sizes.nodes (state_in arrays.old) (state_in arrays.new) result work.new.lists work.new.queued }
    ensures words { work.new.words ≡ work.old.words }
{
    let listed = growing::list_active(layout.sizes, &arrays.nodes, &mut work.lists);
    let count = growing::grow_ways(
        layout,
        listed,
        &mut arrays.edges,
        &mut work.lists,
        &mut work.queued,
    );
    growing::cut(
        layout.sizes,
        &mut arrays.nodes,
        &mut arrays.marks,
        &layout.table,
    );
    count
}
