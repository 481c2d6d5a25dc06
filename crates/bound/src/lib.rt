// S-5, merging comes to rest: the statement in specs/Bound.antt, its proof in proofs/Theorem.antt, and here the bound as a function.
#![tactic(auto)]

ghost use Rattle.std.specs.Prelude.{◌≡◌};
ghost use Rattle.bound.specs.Bound.{bound_of, step_bound};

use shape::Shape;

fn bound_of(shape: Shape) -> usize
    ensures { result ≡ bound_of shape }
{
    4 * extent::nodes(shape) + 4
}

// The most merging steps that a merging stage takes in a window of the shape, 4 N + 4; 0 where the shape is refused.
pub fn step_bound(height: u32, distance: u32, model: u32) -> usize
    ensures { result ≡ step_bound height distance model }
{
    match extent::shape_of(height, distance, model) {
        Ok(shape) => bound_of(shape),
        Err(_) => 0,
    }
}
