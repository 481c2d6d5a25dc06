// What a call tests before it does anything, in the documents' order.
#![tactic(auto)]

ghost use Rattle.std.specs.Prelude.{◌≡◌};
ghost use Rattle.refusal.specs.Answer.{done, unless};
ghost use Rattle.steps.specs.Models.{of_model};
ghost use Rattle.window.specs.Calls.{call_answer, state_tests, round_tests};

use refusal::Refusal;
use window::{MAX_NEXT, Stage, Window};

// The tests of the state: 21, then 22.
pub fn test_state(w: Window, staged: bool) -> Result<(), Refusal>
    ensures { call_answer result ≡ unless (state_tests (of_model w.shape.model) w staged) (done tt 0) }
{
    if !formed::well_formed(w) {
        return Err(Refusal::NotWellFormed);
    }
    if !staged {
        return Err(Refusal::WrongStage);
    }
    Ok(())
}

// The tests of both round calls, 21 to 4, in the documents' order. Not inlined, so that the benchmark can tell what they take.
#[inline(never)]
#[tactic(auto, using(crate::proofs::Counted::counted))]
pub fn test_round(w: Window, bytes: &[u8], edges: usize, escapes: usize) -> Result<(), Refusal>
    ensures { call_answer result ≡ unless (round_tests (of_model w.shape.model) w bytes.now edges escapes) (done tt 0) }
{
    test_state(w, w.stage == Stage::Rest)?;
    if w.next == MAX_NEXT {
        return Err(Refusal::LastRound);
    }
    let detectors = extent::detectors(w.shape);
    if bytes.len() != detectors {
        return Err(Refusal::Detectors);
    }
    if edges != extent::layer_edges(w.shape) {
        return Err(Refusal::Edges);
    }
    if escapes != detectors {
        return Err(Refusal::Escapes);
    }
    if !list_writer::are_bits(bytes) {
        return Err(Refusal::Byte);
    }
    Ok(())
}
