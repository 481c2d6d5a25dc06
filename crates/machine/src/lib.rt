// The rules on windows: a window becomes the machine's arrays, the work is done on these, and the window is made of them again.
#![tactic(auto)]

ghost use Rattle.std.specs.Prelude.{◌≡◌, true, false, ◌<◌, length};
ghost use Rattle.shape.specs.Choice.{if};
ghost use Rattle.shape.specs.Sizes.{detectors_of, layer_edges_of};
ghost use Rattle.steps.specs.Models.{of_model};
ghost use Rattle.window.specs.Window.{is_rest, is_to_grow, max_next};
ghost use Rattle.window.specs.Formed.{well_formed};
ghost use Rattle.window.specs.Grow.{grown};
ghost use Rattle.window.specs.Run.{ran};
ghost use Rattle.window.specs.Calls.{as_round, receiving};
ghost use Rattle.window.specs.declared.Stage.TheVariants.{Rest, Merging};
ghost use Rattle.flat.specs.Structs.{plan_in, state_in};
ghost use Rattle.queue.specs.Queue.{Empty};
ghost use Rattle.grow_step.specs.Standing.{Standing};
ghost use Rattle.machine.specs.Due.{Due};

use flat::{Arrays, Layout, NO_EDGE, PLANE, PLANES, Work};
use window::{Ran, Stage, Window};

// A round received with these defects: what leaves goes to the buffers, and the window is one sheet lower, with a new top sheet.
pub fn round(w: Window, bytes: &[u8], edges: &mut [u8], escapes: &mut [u8]) -> Window
    requires w_value { well_formed (of_model w.shape.model) w ≡ true }
    requires stage_value { is_rest w.stage ≡ true }
    requires next_lt_max_next { w.next < max_next }
    requires bytes_len { length bytes.now ≡ detectors_of w.shape.height w.shape.distance }
    requires edges_len { length edges.old ≡ layer_edges_of w.shape.model w.shape.height w.shape.distance }
    requires escapes_len { length escapes.old ≡ detectors_of w.shape.height w.shape.distance }
    ensures { as_round result edges.new escapes.new ≡ receiving (of_model w.shape.model) w bytes.now }
{
    // written out and made first: a call would copy it, and what is made later is cleared twice
    let mut new = Arrays {
        nodes: [0; PLANE],
        marks: [0; PLANE],
        edges: [NO_EDGE; PLANES],
    };
    let laid = plan::lay_out(w.shape);
    let second = round_step::second(w.shape, w.next);
    let old = unpack::unpack(&w, &laid);
    write_round::leave_round(&laid, &old, edges, escapes);
    round_step::fall(&laid, second, bytes, &old, &mut new);
    pack::pack(w.shape, Stage::ToGrow, w.next + 1, w.measured, &new)
}

// Every edge grows by its active ends.
pub fn grow(w: Window) -> Window
    requires { well_formed (of_model w.shape.model) w ≡ true }
    ensures { result ≡ grown (of_model w.shape.model) w }
{
    let laid = plan::lay_out(w.shape);
    let mut arrays = unpack::unpack(&w, &laid);
    let mut work = Work::empty();
    grow_step::grow(&laid.layout, &mut arrays, &mut work);
    pack::pack(w.shape, Stage::Merging, w.next, w.measured, &arrays)
}

// Grow is due.
fn is_due(stage: Stage) -> bool
    ensures { result ≡ is_to_grow stage }
{
    stage == Stage::ToGrow
}

// Grow on arrays, where it is due; how many ends of opened edges are listed.
fn grow_due(layout: &Layout, due: bool, arrays: &mut Arrays, work: &mut Work) -> usize
    requires lists_len { (length work.old.lists ≡ 13824) × Empty work.old.queued }
    requires standing { Standing (plan_in layout.now) layout.now.sizes.nodes layout.now.sizes.sheet (state_in arrays.old) }
    ensures { Due due (plan_in layout.now) layout.now.sizes.nodes layout.now.sizes.sheet (state_in arrays.old) (state_in arrays.new) result work.new.lists work.new.queued }
{
    if due {
        return grow_step::grow(layout, arrays, work);
    }
    0
}

// The stage that a run comes to.
fn stage_after(rest: bool) -> Stage
    ensures { result ≡ if rest Rest Merging }
{
    if rest {
        return Stage::Rest;
    }
    Stage::Merging
}

// Grow if due, then merging steps up to rest or through the budget. The first work list is of all nodes.
pub fn run(w: Window, budget: u32) -> Ran
    requires w_value { well_formed (of_model w.shape.model) w ≡ true }
    requires stage_value { is_rest w.stage ≡ false }
    ensures { result ≡ ran (of_model w.shape.model) budget w }
{
    let due = is_due(w.stage);
    let laid = plan::lay_out(w.shape);
    let layout = &laid.layout;
    let mut arrays = unpack::unpack(&w, &laid);
    let rides = unpack::rides(layout, due, &arrays);
    let mut work = Work::empty();
    let opened = grow_due(layout, due, &mut arrays, &mut work);
    let count = enlist::all_nodes(layout.sizes, opened, &mut work.lists, &mut work.queued);
    let reached = run_steps::run(layout, rides, budget, count, &mut arrays, &mut work);
    let stage = stage_after(reached.rest);
    Ran {
        window: pack::pack(w.shape, stage, w.next, w.measured, &arrays),
        rest: reached.rest,
        count: reached.count,
    }
}
