// The shape that a height, a distance and a model from C name, and its sizes.
#![tactic(auto)]

ghost use Rattle.std.specs.Prelude.{◌≡◌};
ghost use Rattle.refusal.specs.Answer.{value_or, itself};
ghost use Rattle.shape.specs.Sizes.{shape_by, shape_of};
ghost use Rattle.named.specs.Named.{clip, none, nodes_by, detectors_by, edges_by};

use shape::Shape;

// A height, a distance or a model as a byte: 255 for what no byte holds, which is out of range as well.
fn byte(n: u32) -> u8
    ensures { result ≡ clip n }
{
    u8::try_from(n).unwrap_or(255)
}

// stays: a shape comes as three numbers, since the C interface has it so
// The shape that they name. The calls on records test it, and refuse it by the same number.
pub fn shape_by(height: u32, distance: u32, model: u32) -> Shape
    ensures { result ≡ shape_by (clip height) (clip distance) (clip model) }
{
    Shape {
        height: byte(height),
        distance: byte(distance),
        model: byte(model),
    }
}

// The shape, or 0 by 0 where it is refused.
fn shape_or_none(height: u32, distance: u32, model: u32) -> Shape
    ensures { result ≡ value_or (shape_of height distance model) itself none }
{
    extent::shape_of(height, distance, model).unwrap_or(Shape {
        height: 0,
        distance: 0,
        model: 0,
    })
}

// The sizes of a shape, 0 where it is refused: the nodes of its window,
pub fn nodes(height: u32, distance: u32, model: u32) -> usize
    ensures { result ≡ nodes_by height distance model }
{
    extent::nodes(shape_or_none(height, distance, model))
}

// the detectors of a sheet,
pub fn detectors(height: u32, distance: u32, model: u32) -> usize
    ensures { result ≡ detectors_by height distance model }
{
    extent::detectors(shape_or_none(height, distance, model))
}

// and the edges of a layer.
pub fn layer_edges(height: u32, distance: u32, model: u32) -> usize
    ensures { result ≡ edges_by height distance model }
{
    extent::layer_edges(shape_or_none(height, distance, model))
}
