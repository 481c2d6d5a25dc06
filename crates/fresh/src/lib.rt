// The fresh window of a shape.
#![tactic(auto)]

ghost use Rattle.std.specs.Prelude.{◌≡◌, true};
ghost use Rattle.shape.specs.Sizes.{in_range};
ghost use Rattle.steps.specs.Models.{of_model};
ghost use Rattle.window.specs.Fresh.{fresh_window, no_window};
ghost use Rattle.window.specs.Calls.{call_answer, given, fresh_leaves};

use shape::{MAX_DETECTORS, MAX_NODES, Place, Shape};
use window::{Given, MAX_SLOTS, Stage, Window};

// What stands where a creation is refused.
fn no_window() -> Window
    ensures { result ≡ no_window }
{
    Window {
        shape: Shape {
            height: 0,
            distance: 0,
            model: 0,
        },
        stage: Stage::Rest,
        next: 0,
        nodes: [window::alone(0, false); MAX_NODES],
        growth: [0; MAX_SLOTS],
        correction: [false; MAX_SLOTS],
        measured: [false; MAX_DETECTORS],
    }
}

fn fresh_window(shape: Shape) -> Window
    requires { in_range shape.height shape.distance ≡ true }
    ensures { result ≡ fresh_window (of_model shape.model) shape }
{
    let mut nodes = [window::alone(0, false); MAX_NODES];
    let mut place = Place {
        depth: 0,
        row: 0,
        column: 0,
    };
    for g in 0..extent::nodes(shape) {
        nodes[g] = window::alone(walk::number(shape, place, g), false);
        place = walk::next_place(shape, place);
    }
    Window {
        shape,
        stage: Stage::Rest,
        next: extent::sheets(shape) as u32,
        nodes,
        growth: [0; MAX_SLOTS],
        correction: [false; MAX_SLOTS],
        measured: [false; MAX_DETECTORS],
    }
}

// The fresh window of a height, a distance and a noise model, for a caller's largest height and distance.
pub fn fresh(
    height: u32,
    distance: u32,
    model: u32,
    largest_height: u32,
    largest_distance: u32,
) -> Given<()>
    ensures { given (call_answer result.answer) result.window ≡ fresh_leaves (of_model model) height distance model largest_height largest_distance }
{
    match creation::allowed_shape(height, distance, model, largest_height, largest_distance) {
        Ok(shape) => Given {
            answer: Ok(()),
            window: fresh_window(shape),
        },
        Err(f) => Given {
            answer: Err(f),
            window: no_window(),
        },
    }
}
