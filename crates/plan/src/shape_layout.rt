// A shape with its layout.
#![tactic(auto)]

ghost use Rattle.std.specs.Prelude.{◌≡◌, true};
ghost use Rattle.shape.specs.Sizes.{in_range};
ghost use Rattle.steps.specs.Models.{of_model};
ghost use Rattle.plan.specs.Table.{sizes_of};
ghost use Rattle.plan.specs.Filled.{Filled};

use flat::Layout;
use shape::Shape;

// A shape, and the layout of its windows in the arrays.
#[derive(Drop)]
pub struct ShapeLayout {
    pub shape: Shape,
    pub layout: Layout,
    ghost range: { in_range shape.height shape.distance ≡ true },
    ghost sizes: { layout.sizes ≡ sizes_of (of_model shape.model) shape.height shape.distance },
    ghost filled: { Filled (of_model shape.model) shape.height shape.distance layout.table },
}
