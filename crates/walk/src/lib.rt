// The nodes one after another.
#![tactic(auto)]

ghost use Rattle.std.specs.Prelude.{◌≡◌, ◌<◌};
ghost use Rattle.shape.specs.Nodes.{number_of};
ghost use Rattle.walk.specs.Walk.{place_after, Stands};

use shape::{Place, Shape};

// The place after, in the internal order.
#[tactic(auto, unfolding(crate::specs::Walk::place_after))]
pub fn next_place(shape: Shape, place: Place) -> Place
    requires { place.depth < 255 }
    ensures { result ≡ place_after shape.height shape.distance place }
{
    if place.column < shape.distance {
        return Place {
            column: place.column + 1,
            ..place
        };
    }
    if place.row as usize + 1 < shape.height as usize {
        return Place {
            row: place.row + 1,
            column: 0,
            ..place
        };
    }
    Place {
        depth: place.depth + 1,
        row: 0,
        column: 0,
    }
}

// The number of the node at a place.
pub fn number(shape: Shape, place: Place, g: usize) -> u16
    requires { Stands shape.height shape.distance place g }
    ensures { result ≡ number_of shape.height shape.distance place }
{
    extent::number_of(shape, place) as u16
}
