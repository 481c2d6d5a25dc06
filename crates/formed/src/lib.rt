// The test that a window is well-formed.
#![tactic(auto)]

ghost use Rattle.std.specs.Prelude.{◌≡◌, ◌&&◌};
ghost use Rattle.steps.specs.Models.{of_model};
ghost use Rattle.window.specs.Lists.{every};
ghost use Rattle.window.specs.Window.{size};
ghost use Rattle.window.specs.Formed.{node_fits_at, slot_fits_at, well_formed};

use shape::Place;
use window::Window;

// Every node and every slot of the window.
fn used_fit(w: &Window) -> bool
    ensures { result ≡ every (size w.now) (node_fits_at (of_model w.now.shape.model) w.now) && every (size w.now) (λ g. every (of_model w.now.shape.model).kinds (slot_fits_at (of_model w.now.shape.model) w.now g)) }
{
    let shape = w.shape;
    let stage = w.stage;
    let n = extent::nodes(shape);
    let marks = fits::numbers(shape);
    let there = window::present(shape, w.next);
    let led = window::pointed(shape, stage, w.next);
    let mut place = Place {
        depth: 0,
        row: 0,
        column: 0,
    };
    for g in 0..n {
        if !fits::node_fits(shape, stage, marks, there, led, place, g, w.nodes[g]) {
            return false;
        }
        if !fits::slots_fit(shape, there, n, place, g, &w.growth, &w.correction) {
            return false;
        }
        place = walk::next_place(shape, place);
    }
    true
}

#[tactic(auto, unfolding(window::specs::Formed::well_formed))]
pub fn well_formed(w: Window) -> bool
    ensures { result ≡ well_formed (of_model w.shape.model) w }
{
    let shape = w.shape;
    let n = extent::nodes(shape);
    let slots = steps::kinds(shape.model) as usize * n;
    extent::ranged(shape)
        && extent::model_ok(shape.model as u32)
        && extent::sheets(shape) <= w.next as usize
        && used_fit(&w)
        && unused::rest_unused(&w.nodes, n)
        && unused::rest_unused(&w.growth, slots)
        && unused::rest_unused(&w.correction, slots)
        && unused::rest_unused(&w.measured, extent::detectors(shape))
}
