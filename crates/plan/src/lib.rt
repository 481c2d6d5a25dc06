// The machine's table of a shape: directions, kinds, the nodes' numbers, a fresh sheet's edges and the bottom layer's, all by the table of steps.
#![tactic(auto)]

ghost use Rattle.std.specs.Prelude.{◌≡◌, true, ◌&&◌, ◌+◌, ◌-◌, ◌*◌, ◌≤◌, ◌<◌, replicate};
ghost use Rattle.shape.specs.Choice.{if};
ghost use Rattle.shape.specs.Sizes.{in_range, sheets_of};
ghost use Rattle.shape.specs.Nodes.{boundary_nodes};
ghost use Rattle.steps.specs.Models.{of_model};
ghost use Rattle.layers.specs.Boxes.{first as first_in, end as end_in, rows, columns, within, named};
ghost use Rattle.flat.specs.Stored.{stored};
ghost use Rattle.plan.specs.Passes.{passes, blocks};
ghost use Rattle.plan.specs.Table.{sizes_of, small, off_by, slot_by, rises_by, head_of, row_number, row_of, fresh_by, area_of, place_row, fresh_on, places_on};
ghost use Rattle.plan.specs.Filled.{Filled};

use flat::{FRESH, Layout, MARGIN, NO_EDGE, PART, PLACES, PLANE, Sizes, TABLE};
use shape::{MAX_SHEET_NODES, Place, Shape};
use steps::{Shift, Step};

mod shape_layout;
mod storing;

pub use shape_layout::ShapeLayout;
pub use storing::store;

// The rectangle of rows and columns from which a step goes along an edge.
#[derive(Clone, Copy)]
pub struct Area {
    top: usize,
    bottom: usize,
    left: usize,
    right: usize,
}

// The sizes of a shape.
// stays: each function here asks that its shape is in range; a second type of shape is no plainer, and one that fills would have to say that it keeps its shape
pub fn sizes(shape: Shape) -> Sizes
    requires { in_range shape.height shape.distance ≡ true }
    ensures { result ≡ sizes_of (of_model shape.model) shape.height shape.distance }
{
    let h = shape.height as usize;
    Sizes {
        dirs: steps::dirs(shape.model) as usize,
        kinds: steps::kinds(shape.model) as usize,
        nodes: extent::nodes(shape),
        sheet: h * (shape.distance as usize + 1),
        bound: (2 * h * (extent::sheets(shape) + 1)) as u16,
    }
}

// DIRECTIONS AND KINDS

// How far a step's other end lies, the margin added.
fn off(shape: Shape, step: Step) -> u16
    requires distance_value { in_range shape.height shape.distance ≡ true }
    requires step_value { small step ≡ true }
    ensures { result ≡ off_by shape.height shape.distance step }
{
    let Step {
        row,
        column,
        sheet,
        ..
    } = step;
    let on = extent::index_of(
        shape,
        Place {
            depth: sheet.more,
            row: row.more,
            column: column.more,
        },
    );
    let back = extent::index_of(
        shape,
        Place {
            depth: sheet.less,
            row: row.less,
            column: column.less,
        },
    );
    (MARGIN + on - back) as u16
}

// How far the end that names its edge lies.
fn end_off(shape: Shape, step: Step) -> u16
    requires distance_value { in_range shape.height shape.distance ≡ true }
    requires step_value { small step ≡ true }
    ensures { result ≡ if step.own 512 (off_by shape.height shape.distance step) }
{
    if step.own {
        return MARGIN as u16;
    }
    off(shape, step)
}

// How far its edge lies.
fn slot(shape: Shape, step: Step) -> u16
    requires distance_value { in_range shape.height shape.distance ≡ true }
    requires step_value { small step ≡ true }
    ensures { result ≡ slot_by shape.height shape.distance step }
{
    step.kind as u16 * PLANE as u16 + end_off(shape, step)
}

// The edges of the kind go up.
fn rises(model: u8, kind: u8) -> bool
    ensures { result ≡ rises_by (named (of_model model) kind) }
{
    let sheet = steps::step_of(model, steps::namer(model, kind)).sheet;
    sheet.more < sheet.less
}

// An entry of the first six parts, of 32 entries each.
fn head(shape: Shape, i: usize) -> u16
    requires distance_value { in_range shape.height shape.distance ≡ true }
    requires i_bound { i < 192 }
    ensures { result ≡ head_of (of_model shape.model) shape.height shape.distance i }
{
    let k = (i % PART) as u8;
    let step = steps::step_of(shape.model, k + 1);
    match i / PART {
        0 => off(shape, step),
        1 => slot(shape, step),
        2 => step.back as u16,
        3 => steps::namer(shape.model, k).saturating_sub(1) as u16,
        4 => u16::from(steps::falls(shape.model, k)),
        _ => u16::from(rises(shape.model, k)),
    }
}

fn heads(shape: Shape, table: &mut [u16; TABLE])
    requires { in_range shape.height shape.distance ≡ true }
    ensures { table.new ≡ stored 0 (head_of (of_model shape.model) shape.height shape.distance) 192 table.old }
{
    store(0, 6 * PART, |i| head(shape, i), table);
}

// NUMBERS

// The number at a column: two boundary nodes to a row, and its detectors.
fn number_at(d: usize, low: u16, high: u16, c: usize) -> u16
    requires { (low ≤ 1000) × (high ≤ 8000) × (c ≤ 15) }
    ensures { result ≡ row_number d low high c }
{
    if c == 0 {
        low
    } else if c == d {
        low + 1
    } else {
        high + c as u16
    }
}

// The nodes' own numbers, row by row of all sheets.
fn numbers(shape: Shape, bound: u16, table: &mut [u16; TABLE])
    requires distance_value { in_range shape.height shape.distance ≡ true }
    requires bound_value { bound ≡ boundary_nodes shape.height shape.distance }
    ensures { table.new ≡ blocks 512 (shape.distance + 1) (row_of shape.height shape.distance) (shape.distance + 1) (shape.height * sheets_of shape.distance) table.old }
{
    let d = shape.distance as usize;
    let inner = (shape.distance as u16).saturating_sub(1);
    for r in 0..shape.height as usize * extent::sheets(shape) {
        let low = r as u16 * 2;
        let high = bound - 1 + r as u16 * inner;
        store(
            MARGIN + r * (d + 1),
            d + 1,
            |c| number_at(d, low, high, c),
            table,
        );
    }
}

// EDGES

fn first(shift: Shift) -> usize
    ensures { result ≡ first_in shift }
{
    shift.less.saturating_sub(shift.more) as usize
}

fn end(shift: Shift, n: usize) -> usize
    ensures { result ≡ end_in shift n }
{
    n.saturating_sub(shift.more.saturating_sub(shift.less) as usize)
}

impl Area {
    // The area of a kind's edges in a sheet.
    fn of(shape: Shape, kind: u8) -> Area
        ensures { result ≡ area_of shape.height shape.distance (named (of_model shape.model) kind) }
    {
        let step = steps::step_of(shape.model, steps::namer(shape.model, kind));
        let d = shape.distance as usize;
        let (left, right) = if joins::beside(step) {
            (first(step.column), end(step.column, d + 1))
        } else {
            (1 + first(step.column), end(step.column, d))
        };
        Area {
            top: first(step.row),
            bottom: end(step.row, shape.height as usize),
            left,
            right,
        }
    }

    // It has the place at a row and a column.
    fn has(self, row: usize, column: usize) -> bool
        ensures { result ≡ (within self.top self.bottom row && within self.left self.right column) }
    {
        self.top <= row && row < self.bottom && self.left <= column && column < self.right
    }

    fn rows(self) -> usize
        ensures { result ≡ self.bottom - self.top }
    {
        self.bottom.saturating_sub(self.top)
    }

    fn columns(self) -> usize
        ensures { result ≡ self.right - self.left }
    {
        self.right.saturating_sub(self.left)
    }
}

fn fresh(there: bool) -> u16
    ensures { result ≡ fresh_by there }
{
    if there { 0 } else { NO_EDGE as u16 }
}

// A fresh sheet's edges of a kind.
fn fresh_kind(shape: Shape, kind: u8, table: &mut [u16; TABLE])
    requires distance_value { in_range shape.height shape.distance ≡ true }
    requires kind_bound { kind < 6 }
    ensures { table.new ≡ fresh_on (of_model shape.model) shape.height shape.distance kind table.old }
{
    let area = Area::of(shape, kind);
    let w = shape.distance as usize + 1;
    for r in 0..shape.height as usize {
        store(
            FRESH + MAX_SHEET_NODES * kind as usize + r * w,
            w,
            |c| fresh(area.has(r, c)),
            table,
        );
    }
}

fn fresh_kinds(shape: Shape, table: &mut [u16; TABLE])
    requires { in_range shape.height shape.distance ≡ true }
    ensures { table.new ≡ passes (fresh_on (of_model shape.model) shape.height shape.distance) (of_model shape.model).kinds table.old }
{
    for kind in 0..steps::kinds(shape.model) {
        fresh_kind(shape, kind, table);
    }
}

// The bottom layer's edges of a kind, the cells of a row one after the other; the entry behind them.
fn places_kind(
    shape: Shape,
    kind: u8,
    bottom: usize,
    start: usize,
    table: &mut [u16; TABLE],
) -> usize
    requires distance_value { in_range shape.height shape.distance ≡ true }
    requires kind_bound { (kind < 6) × (bottom ≤ 3872) × (start ≤ 6144 + 240 * kind) }
    ensures { (result ≡ start + rows shape.height (named (of_model shape.model) kind) * columns shape.distance (named (of_model shape.model) kind)) × (table.new ≡ blocks start (columns shape.distance (named (of_model shape.model) kind)) (place_row shape.distance bottom (named (of_model shape.model) kind) kind) (columns shape.distance (named (of_model shape.model) kind)) (rows shape.height (named (of_model shape.model) kind)) table.old) }
{
    let area = Area::of(shape, kind);
    let w = shape.distance as usize + 1;
    let (m, n) = (area.rows(), area.columns());
    let corner = PLANE * kind as usize + bottom + area.top * w + area.left;
    for i in 0..m {
        let from = corner + i * w;
        store(start + i * n, n, |c| (from + c) as u16, table);
    }
    start + m * n
}

fn places(shape: Shape, bottom: usize, table: &mut [u16; TABLE])
    requires distance_value { in_range shape.height shape.distance ≡ true }
    requires bottom_bound { bottom ≤ 3872 }
    ensures { table.new ≡ passes (places_on (of_model shape.model) shape.height shape.distance bottom) (of_model shape.model).kinds table.old }
{
    let mut start = PLACES;
    for kind in 0..steps::kinds(shape.model) {
        start = places_kind(shape, kind, bottom, start, table);
    }
}

// The table of a shape, in an array of zeros.
fn fill(shape: Shape, table: &mut [u16; TABLE])
    requires distance_value { in_range shape.height shape.distance ≡ true }
    requires table_value { table.old ≡ replicate 7680 0 }
    ensures { Filled (of_model shape.model) shape.height shape.distance table.new }
{
    let z = sizes(shape);
    heads(shape, table);
    numbers(shape, z.bound, table);
    fresh_kinds(shape, table);
    places(shape, MARGIN + z.nodes - z.sheet, table);
}

// The layout of a shape.
pub fn lay_out(shape: Shape) -> ShapeLayout
    requires { in_range shape.height shape.distance ≡ true }
    ensures { result.shape ≡ shape }
{
    let sizes = sizes(shape);
    let mut table = [0; TABLE];
    fill(shape, &mut table);
    ShapeLayout {
        shape,
        layout: Layout { sizes, table },
    }
}
