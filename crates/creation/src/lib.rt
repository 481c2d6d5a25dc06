// S-6, creation: whether the caller's largest height and distance allow a shape. The shape's own tests come first.
#![tactic(auto)]

ghost use Rattle.std.specs.Prelude.{◌≡◌};
ghost use Rattle.refusal.specs.Answer.{status};
ghost use Rattle.shape.specs.Sizes.{shape_answer};
ghost use Rattle.creation.specs.Creation.{limits_allow, allowed_shape};

use refusal::Refusal;
use shape::{MAX_DISTANCE, MAX_HEIGHT, Shape};

// No limit is above the largest shape's, and the shape is not over them.
fn limits_allow(height: u32, distance: u32, largest_height: u32, largest_distance: u32) -> bool
    ensures { result ≡ limits_allow height distance largest_height largest_distance }
{
    let ok = (largest_height <= MAX_HEIGHT as u32) & (largest_distance <= MAX_DISTANCE as u32);
    let within = (height <= largest_height) & (distance <= largest_distance);
    ok & within
}

// The shape of a height, a distance and a model, where the caller's limits allow it.
pub fn allowed_shape(
    height: u32,
    distance: u32,
    model: u32,
    largest_height: u32,
    largest_distance: u32,
) -> Result<Shape, Refusal>
    ensures { shape_answer result ≡ allowed_shape height distance model largest_height largest_distance }
{
    let shape = extent::shape_of(height, distance, model)?;
    if !limits_allow(height, distance, largest_height, largest_distance) {
        return Err(Refusal::Limit);
    }
    Ok(shape)
}

// The same as one number: 0 where it is allowed, else the refusal's.
pub fn allowed(
    height: u32,
    distance: u32,
    model: u32,
    largest_height: u32,
    largest_distance: u32,
) -> u8
    ensures { result ≡ status (allowed_shape height distance model largest_height largest_distance) }
{
    match allowed_shape(height, distance, model, largest_height, largest_distance) {
        Ok(_) => 0,
        Err(f) => u8::from(f),
    }
}
