// Whether there is an edge from a place along a step.
#![tactic(auto)]

ghost use Rattle.std.specs.Prelude.{◌≡◌};
ghost use Rattle.steps.specs.Models.{of_model};
ghost use Rattle.steps.specs.Steps.{step as step_in, goes as goes_to, fits as fits_in, still as still_in, along_row, one_apart, beside as beside_in, inside_of, both_detectors, joined as joined_by};

use shape::{Place, Shape};
use steps::{Shift, Step};

fn goes(shift: Shift, a: u8) -> usize
    ensures { result ≡ goes_to shift a }
{
    (a as usize + shift.more as usize).saturating_sub(shift.less as usize)
}

fn fits(shift: Shift, a: u8, n: usize) -> bool
    ensures { result ≡ fits_in shift a n }
{
    (shift.less as usize <= a as usize + shift.more as usize) & (goes(shift, a) < n)
}

fn still(shift: Shift) -> bool
    ensures { result ≡ still_in shift }
{
    shift.less == shift.more
}

fn along_row(step: Step) -> bool
    ensures { result ≡ along_row step }
{
    still(step.row) & still(step.sheet)
}

fn one_apart(shift: Shift) -> bool
    ensures { result ≡ one_apart shift }
{
    shift.less.abs_diff(shift.more) == 1
}

// The step leads to the row neighbour, the only one that a boundary node has.
pub fn beside(step: Step) -> bool
    ensures { result ≡ beside_in step }
{
    along_row(step) & one_apart(step.column)
}

fn inside(shape: Shape, sheets: usize, place: Place) -> bool
    ensures { result ≡ inside_of shape.height shape.distance sheets place }
{
    ((place.depth as usize) < sheets)
        & (place.row < shape.height)
        & (place.column <= shape.distance)
}

fn both_detectors(shape: Shape, step: Step, place: Place) -> bool
    ensures { result ≡ both_detectors shape.distance step place }
{
    let to = goes(step.column, place.column);
    !extent::is_boundary(shape, place.column) & !((to == 0) | (to == shape.distance as usize))
}

// There is an edge from the place along the step, if so many sheets are there.
#[tactic(auto, unfolding(steps::specs::Steps::joined))]
fn joined_by(shape: Shape, sheets: usize, step: Step, place: Place) -> bool
    ensures { result ≡ joined_by shape.height shape.distance sheets step place }
{
    let within = inside(shape, sheets, place)
        & fits(step.row, place.row, shape.height as usize)
        & fits(step.column, place.column, shape.distance as usize + 1)
        & fits(step.sheet, place.depth, sheets);
    let stays = along_row(step) & still(step.column);
    within & !stays & (beside(step) | both_detectors(shape, step, place))
}

// There is an edge from the place in the direction of the pointer.
pub fn joined(shape: Shape, sheets: usize, pointer: u8, place: Place) -> bool
    ensures { result ≡ joined_by shape.height shape.distance sheets (step_in (of_model shape.model) pointer) place }
{
    let step = steps::step_of(shape.model, pointer);
    joined_by(shape, sheets, step, place)
}
