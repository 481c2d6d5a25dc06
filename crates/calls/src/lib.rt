// The calls on a window: each tests what document 01 says, in its order, and then does what its rule says. What is refused leaves everything as it was.
#![tactic(auto)]

ghost use Rattle.std.specs.Prelude.{◌≡◌};
ghost use Rattle.refusal.specs.Answer.{itself};
ghost use Rattle.steps.specs.Models.{of_model};
ghost use Rattle.window.specs.Calls.{call_answer, given, leaves, grow_call};
ghost use Rattle.calls.specs.Answers.{round_returned, round_leaves, raw_leaves, merging_answer, merging_leaves, run_answer, run_leaves};

use window::{Given, Stage, Window};

// How a merging step ended: some node was busy, or none was and the stage is rest.
#[derive(Clone, Copy, PartialEq, Eq)]
pub enum Merged {
    Busy,
    Rest,
}

// How a run ended: at rest, or with its budget spent; with the count of steps made.
#[derive(Clone, Copy, PartialEq, Eq)]
pub enum Outcome {
    Rest(u32),
    Spent(u32),
}

// Receives a round of defects: the bottom layer's edges and defects go to the buffers, and all else moves down one sheet.
#[tactic(auto, using(tested::proofs::Counted::counted), unfolding(window::specs::Calls::round_call))]
pub fn round(w: Window, bytes: &[u8], edges: &mut [u8], escapes: &mut [u8]) -> Given<()>
    ensures { round_returned (call_answer result.answer) result.window edges.new escapes.new ≡ round_leaves (of_model w.shape.model) w bytes.now edges.old escapes.old }
{
    if let Err(f) = tested::test_round(w, bytes, edges.len(), escapes.len()) {
        return Given {
            answer: Err(f),
            window: w,
        };
    }
    Given {
        answer: Ok(()),
        window: machine::round(w, bytes, edges, escapes),
    }
}

// stays: `round` again but for what receives the round; with that as a parameter, its requirements would stand here, no plainer
// Receives a round of raw measurements: its defects are the places that differ from the last measured sheet, which the bytes then replace.
#[tactic(auto, using(tested::proofs::Counted::counted), unfolding(window::specs::Calls::raw_call, window::specs::Measured::measuring))]
pub fn raw_round(w: Window, bytes: &[u8], edges: &mut [u8], escapes: &mut [u8]) -> Given<()>
    ensures { round_returned (call_answer result.answer) result.window edges.new escapes.new ≡ raw_leaves (of_model w.shape.model) w bytes.now edges.old escapes.old }
{
    if let Err(f) = tested::test_round(w, bytes, edges.len(), escapes.len()) {
        return Given {
            answer: Err(f),
            window: w,
        };
    }
    Given {
        answer: Ok(()),
        window: raw::raw(w, bytes, edges, escapes),
    }
}

// Grows every edge by its active ends.
#[tactic(auto, unfolding(window::specs::Calls::grow_call))]
pub fn grow(w: Window) -> Given<()>
    ensures { given (call_answer result.answer) result.window ≡ leaves (grow_call (of_model w.shape.model) w) itself w }
{
    if let Err(f) = tested::test_state(w, w.stage == Stage::ToGrow) {
        return Given {
            answer: Err(f),
            window: w,
        };
    }
    Given {
        answer: Ok(()),
        window: machine::grow(w),
    }
}

// Makes one merging step: a run of one.
#[tactic(auto, using(crate::proofs::Steps::steps), unfolding(window::specs::Calls::merging_call))]
pub fn merging(w: Window) -> Given<Merged>
    ensures { given (merging_answer result.answer) result.window ≡ merging_leaves (of_model w.shape.model) w }
{
    if let Err(f) = tested::test_state(w, w.stage == Stage::Merging) {
        return Given {
            answer: Err(f),
            window: w,
        };
    }
    let ran = machine::run(w, 1);
    let merged = if ran.rest { Merged::Rest } else { Merged::Busy };
    Given {
        answer: Ok(merged),
        window: ran.window,
    }
}

// Runs a window to rest, or through its budget of merging steps: it grows if that is due.
#[tactic(auto, unfolding(window::specs::Calls::run_call))]
pub fn run(w: Window, budget: u32) -> Given<Outcome>
    ensures { given (run_answer result.answer) result.window ≡ run_leaves (of_model w.shape.model) w budget }
{
    if let Err(f) = tested::test_state(w, w.stage != Stage::Rest) {
        return Given {
            answer: Err(f),
            window: w,
        };
    }
    let ran = machine::run(w, budget);
    let outcome = if ran.rest {
        Outcome::Rest(ran.count)
    } else {
        Outcome::Spent(ran.count)
    };
    Given {
        answer: Ok(outcome),
        window: ran.window,
    }
}
