// The extent of a shape: its sizes, and where its nodes stand and what their numbers are, computed.
#![tactic(auto)]

ghost use Rattle.std.specs.Prelude.{◌≡◌, ◌^◌, ◌≤◌};
ghost use Rattle.shape.specs.Sizes.{height_ok, distance_ok, model_ok, in_range, shape_of, shape_fine, shape_answer, tested_answer, sheets_of, boundary, detectors_of, plain_edges, diagonal_edges, layer_edges_of, nodes_of};
ghost use Rattle.shape.specs.Nodes.{number_of, index_of};

use refusal::Refusal;
use shape::{MAX_DISTANCE, MAX_HEIGHT, Place, Shape};

pub fn height_ok(h: u32) -> bool
    ensures { result ≡ height_ok h }
{
    (1..=MAX_HEIGHT as u32).contains(&h)
}

pub fn distance_ok(d: u32) -> bool
    ensures { result ≡ distance_ok d }
{
    (2..=MAX_DISTANCE as u32).contains(&d)
}

pub fn model_ok(m: u32) -> bool
    ensures { result ≡ model_ok m }
{
    m <= 1
}

pub fn shape_of(height: u32, distance: u32, model: u32) -> Result<Shape, Refusal>
    ensures { shape_answer result ≡ shape_of height distance model }
{
    if !height_ok(height) {
        return Err(Refusal::Height);
    }
    if !distance_ok(distance) {
        return Err(Refusal::Distance);
    }
    if !model_ok(model) {
        return Err(Refusal::Model);
    }
    Ok(Shape {
        height: height as u8,
        distance: distance as u8,
        model: model as u8,
    })
}

// The same tests on a shape that anyone may have made.
pub fn in_range(shape: Shape) -> Result<(), Refusal>
    ensures { tested_answer result ≡ shape_fine shape }
{
    shape_of(
        shape.height as u32,
        shape.distance as u32,
        shape.model as u32,
    )?;
    Ok(())
}

pub fn ranged(shape: Shape) -> bool
    ensures { result ≡ in_range shape.height shape.distance }
{
    height_ok(shape.height as u32) & distance_ok(shape.distance as u32)
}

pub fn sheets(shape: Shape) -> usize
    ensures { result ≡ sheets_of shape.distance }
{
    2 * (shape.distance as usize / 2) + 1
}

pub fn is_boundary(shape: Shape, column: u8) -> bool
    ensures { result ≡ boundary shape.distance column }
{
    (column == 0) | (column == shape.distance)
}

pub fn detectors(shape: Shape) -> usize
    ensures { result ≡ detectors_of shape.height shape.distance }
{
    shape.height as usize * (shape.distance as usize).saturating_sub(1)
}

// The diagonals of a layer: NU, EU, SEU.
fn diagonal_edges(shape: Shape) -> usize
    ensures { (result ≡ diagonal_edges shape.height shape.distance) × (result ≤ 2 ^ 20) }
{
    let h = shape.height as usize;
    let d = shape.distance as usize;
    let rows = h.saturating_sub(1);
    let columns = d.saturating_sub(2);
    rows * d.saturating_sub(1) + h * columns + rows * columns
}

fn plain_edges(shape: Shape) -> usize
    ensures { (result ≡ plain_edges shape.height shape.distance) × (result ≤ 2 ^ 20) }
{
    let h = shape.height as usize;
    let d = shape.distance as usize;
    let inner = d.saturating_sub(1);
    h * d + h.saturating_sub(1) * inner + h * inner
}

// The edges of a layer.
pub fn layer_edges(shape: Shape) -> usize
    ensures { result ≡ layer_edges_of shape.model shape.height shape.distance }
{
    if shape.model == 1 {
        return plain_edges(shape) + diagonal_edges(shape);
    }
    plain_edges(shape)
}

pub fn nodes(shape: Shape) -> usize
    ensures { result ≡ nodes_of shape.height shape.distance }
{
    if !ranged(shape) {
        return 0;
    }
    shape.height as usize * (shape.distance as usize + 1) * sheets(shape)
}

// A place in the internal order.
#[tactic(auto, unfolding(shape::specs::Nodes::index_of))]
pub fn index_of(shape: Shape, place: Place) -> usize
    ensures { result ≡ index_of shape.height shape.distance place }
{
    (place.depth as usize * shape.height as usize + place.row as usize)
        * (shape.distance as usize + 1)
        + place.column as usize
}

// The document's number of a place, the ghost sheet's too.
#[tactic(auto, unfolding(shape::specs::Nodes::number_of))]
pub fn number_of(shape: Shape, place: Place) -> usize
    ensures { result ≡ number_of shape.height shape.distance place }
{
    let h = shape.height as usize;
    let depth = place.depth as usize;
    let row = place.row as usize;
    if is_boundary(shape, place.column) {
        return 2 * h * depth + 2 * row + (place.column != 0) as usize;
    }
    let inner = (shape.distance as usize).saturating_sub(1);
    2 * h * (sheets(shape) + 1)
        + h * inner * depth
        + inner * row
        + (place.column as usize).saturating_sub(1)
}
