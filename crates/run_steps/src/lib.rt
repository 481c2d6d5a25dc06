// Merging steps on the machine's arrays, up to rest or through a budget.
#![tactic(auto)]

ghost use Rattle.std.specs.Prelude.{◌+◌, ◌≤◌};
ghost use Rattle.flat.specs.Step.{list_at, Places};
ghost use Rattle.flat.specs.Structs.{plan_in, state_in};
ghost use Rattle.queue.specs.Queue.{Queue};
ghost use Rattle.merge_step.specs.Pass.{PassLeaves};
ghost use Rattle.run_steps.specs.Going.{Shown, Stopped, Finished};

use flat::{Arrays, LISTS, Layout, PLANE, Work};

// How a run ended: at rest or not, and the steps made.
#[derive(Clone, Copy)]
pub struct Reached {
    pub rest: bool,
    pub count: u32,
}

// How a run ended, and the work list that it stands at.
#[derive(Clone, Copy)]
pub struct Stop {
    reached: Reached,
    from: usize,
    listed: usize,
}

// One step over the list at `from`.
fn step(
    layout: &Layout,
    from: usize,
    count: usize,
    arrays: &mut Arrays,
    lists: &[u16; LISTS],
    words: &mut [u32; PLANE],
) -> bool
    requires count_bound { (from + count ≤ 13824) × (count ≤ 4608) }
    requires places { Places layout.now.sizes.nodes count (list_at lists.now from) }
    ensures { PassLeaves (plan_in layout.now) (state_in arrays.old) count (list_at lists.now from) layout.now.sizes.nodes result arrays.new.nodes arrays.new.marks arrays.new.edges words.new }
{
    merge_step::pass(layout, &lists[from..from + count], arrays, words)
}

// Steps over work lists, the first of them at 0. Where pointers do not ride on open edges, every step's list is the first one.
fn steps(
    layout: &Layout,
    rides: bool,
    budget: u32,
    listed: usize,
    arrays: &mut Arrays,
    work: &mut Work,
) -> Stop
    requires queue { Queue 0 listed work.old.lists work.old.queued }
    requires shown { Shown (plan_in layout.now) layout.now.sizes.nodes (state_in arrays.old) rides listed (list_at work.old.lists 0) }
    ensures { Stopped (plan_in layout.now) layout.now.sizes.nodes budget (state_in arrays.old) rides listed (list_at work.old.lists 0) result.reached.rest result.reached.count result.from result.listed arrays.new.nodes arrays.new.marks arrays.new.edges work.new.words work.new.lists work.new.queued }
{
    let mut from = 0;
    let mut count = listed;
    for made in 0..budget {
        let busy = step(layout, from, count, arrays, &work.lists, &mut work.words);
        if !busy {
            let reached = Reached {
                rest: true,
                count: made + 1,
            };
            return Stop {
                reached,
                from,
                listed: count,
            };
        }
        if rides {
            let to = PLANE - from;
            count = next_list::next_list(layout, from, to, count, &arrays.edges, work);
            from = to;
        }
    }
    let reached = Reached {
        rest: false,
        count: budget,
    };
    Stop {
        reached,
        from,
        listed: count,
    }
}

// Merging steps over work lists, the first of them at 0; afterwards no node is queued.
pub fn run(
    layout: &Layout,
    rides: bool,
    budget: u32,
    listed: usize,
    arrays: &mut Arrays,
    work: &mut Work,
) -> Reached
    requires queue { Queue 0 listed work.old.lists work.old.queued }
    requires shown { Shown (plan_in layout.now) layout.now.sizes.nodes (state_in arrays.old) rides listed (list_at work.old.lists 0) }
    ensures { Finished (plan_in layout.now) layout.now.sizes.nodes budget (state_in arrays.old) rides listed (list_at work.old.lists 0) result.rest result.count arrays.new.nodes arrays.new.marks arrays.new.edges work.new.words work.new.lists work.new.queued }
{
    let stop = steps(layout, rides, budget, listed, arrays, work);
    queue::unqueue(stop.from, stop.listed, &work.lists, &mut work.queued);
    stop.reached
}
