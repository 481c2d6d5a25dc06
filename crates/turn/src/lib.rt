// A round of the stream on the machine's arrays: received from one set into the other, and run.
#![tactic(auto)]

ghost use Rattle.std.specs.Prelude.{◌≡◌, ◌<◌, length};
ghost use Rattle.shape.specs.Sizes.{detectors_of};
ghost use Rattle.window.specs.Window.{max_next};
ghost use Rattle.flat.specs.Structs.{plan_in, state_in};
ghost use Rattle.turn.specs.Ready.{Ready};
ghost use Rattle.turn.specs.Turned.{TurnLeaves};

use flat::{Arrays, Work};
use plan::ShapeLayout;
use run_steps::Reached;

// Merging steps a round.
pub const BUDGET: u32 = 65536;

// What the arrays hold of a window besides its nodes and edges: its next round, whether its pointers ride on open edges, and whether it was run to
// rest, so that a merging step would change no node.
#[derive(Clone, Copy)]
pub struct Held {
    pub next: u32,
    pub rides: bool,
    pub quiet: bool,
}

// Receives a round and runs the window. Where all was quiet and pointers ride, the first step goes over what the round and the growth changed.
pub fn turn(
    laid: &ShapeLayout,
    held: Held,
    bytes: &[u8],
    old: &Arrays,
    new: &mut Arrays,
    work: &mut Work,
) -> Reached
    requires ready { Ready laid.now.shape laid.now.layout held.next held.rides held.quiet old.now new.old work.old }
    requires next_lt_max_next { (held.next < max_next) × (length bytes.now ≡ detectors_of laid.now.shape.height laid.now.shape.distance) }
    ensures { TurnLeaves (plan_in laid.now.layout) laid.now.shape held.next bytes.now (state_in old.now) held.rides held.quiet result.rest result.count new.new work.new }
{
    let layout = &laid.layout;
    let second = round_step::second(laid.shape, held.next);
    round_step::fall(laid, second, bytes, old, new);
    let opened = grow_step::grow(layout, new, work);
    let changes = held.rides & held.quiet;
    let listed = work_list::work_list(layout, changes, opened, new, work);
    run_steps::run(layout, held.rides, BUDGET, listed, new, work)
}
