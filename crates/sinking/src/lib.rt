// A round on the flat machine's arrays: one set moves into the other, one sheet lower.
#![tactic(auto)]

ghost use Rattle.std.specs.Prelude.{◌≡◌, ◌+◌, ◌-◌, ◌≤◌, true, ◌&&◌, nat_le, nat_lt, slice_index, get_or, length};
ghost use Rattle.shape.specs.Choice.{if};
ghost use Rattle.shape.specs.Sizes.{in_range};
ghost use Rattle.flat.specs.Stored.{stored};
ghost use Rattle.sinking.specs.Sunk.{settled, Ordered, lowered_by, thresholds_of};

use flat::{MARGIN, PLANE, PLANES, Sizes};
use shape::Shape;

// Numbers below `boundary` are boundary nodes' of the window's sheets, and one sheet lower they are `sides` more; those from `detectors` on
// and below `end` are its detectors', and become `inner` more. All others stay.
#[derive(Clone, Copy)]
pub struct Thresholds {
    pub boundary: u16,
    pub detectors: u16,
    pub end: u16,
    pub sides: u16,
    pub inner: u16,
}

pub fn thresholds_of(shape: Shape) -> Thresholds
    requires { in_range shape.height shape.distance ≡ true }
    ensures { result ≡ thresholds_of shape.height shape.distance }
{
    let h = shape.height as u16;
    let width = shape.distance as u16 - 1;
    let s = extent::sheets(shape) as u16;
    Thresholds {
        boundary: 2 * h * s,
        detectors: 2 * h * (s + 1),
        end: 2 * h * (s + 1) + h * width * s,
        sides: 2 * h,
        inner: h * width,
    }
}

// A node that is no longer unrooted.
fn settle(v: u8) -> u8
    ensures { result ≡ settled v }
{
    v % 4 + 8 * (v / 8)
}

// A number one sheet lower, by a sum with no branch. One below `detectors` wraps, and is past all of them.
fn lower(m: u16, t: Thresholds) -> u16
    requires { Ordered t }
    ensures { result ≡ lowered_by t m }
{
    let sides = if m < t.boundary { t.sides } else { 0 };
    let inner = if m.wrapping_sub(t.detectors) < t.end - t.detectors {
        t.inner
    } else {
        0
    };
    m + (sides + inner)
}

// How many nodes stay in the window: those of the bottom sheet leave, and behind the nodes there is no edge.
fn staying(z: Sizes) -> usize
    requires { z.sheet ≤ z.nodes }
    ensures { result ≡ z.nodes - z.sheet }
{
    z.nodes - z.sheet
}

// The entries of the nodes that stay, one sheet lower, each by a rule.
fn sink<T: Copy, F: Fn(T) -> T>(z: Sizes, old: &[T], new: &mut [T], rule: F)
    requires sheet_le_nodes { (z.sheet ≤ z.nodes) × (z.nodes ≤ 3600) }
    requires lens { (512 + z.nodes ≤ length old.now) × (512 + z.nodes ≤ length new.old) }
    requires callable { F.IsAlwaysCallable rule }
    ensures { (f : T → T) → ((v r : T) → F.post rule v r → r ≡ f v) → (d : T) → new.new ≡ stored (512 + z.sheet) (λ i. f (get_or old.now (512 + i) d)) (z.nodes - z.sheet) new.old }
{
    let down = MARGIN + z.sheet;
    let rest = staying(z);
    for (i, entry) in new[down..down + rest].iter_mut().enumerate() {
        *entry = rule(old[MARGIN + i]);
    }
}

pub fn sink_nodes(z: Sizes, old: &[u8; PLANE], nodes: &mut [u8; PLANE])
    requires { (z.sheet ≤ z.nodes) × (z.nodes ≤ 3600) }
    ensures { nodes.new ≡ stored (512 + z.sheet) (λ i. settled (slice_index old.now (512 + i))) (z.nodes - z.sheet) nodes.old }
{
    sink(z, old, nodes, settle);
}

pub fn sink_marks(z: Sizes, t: Thresholds, old: &[u16; PLANE], marks: &mut [u16; PLANE])
    requires sheet_le_nodes { (z.sheet ≤ z.nodes) × (z.nodes ≤ 3600) }
    requires ordered { Ordered t }
    ensures { marks.new ≡ stored (512 + z.sheet) (λ i. lowered_by t (slice_index old.now (512 + i))) (z.nodes - z.sheet) marks.old }
{
    sink(z, old, marks, |m| lower(m, t));
}

// The edges of one kind.
pub fn sink_edges(first: usize, z: Sizes, old: &[u8; PLANES], edges: &mut [u8; PLANES])
    requires { (first ≤ 23040) × (z.sheet ≤ z.nodes) × (z.nodes ≤ 3600) }
    ensures { edges.new ≡ stored (first + 512 + z.sheet) (λ i. slice_index old.now (first + 512 + i)) (z.nodes - z.sheet) edges.old }
{
    let at = first + MARGIN;
    let down = at + z.sheet;
    let rest = staying(z);
    // stays: the library's copy of a slice needs memmove, which the archive does not ask of its C library
    for (i, edge) in edges[down..down + rest].iter_mut().enumerate() {
        *edge = old[at + i];
    }
}
