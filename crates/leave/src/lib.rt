// What leaves with a round, on the flat machine's arrays: the bottom layer's correction bits and the bottom sheet's defects.
#![tactic(auto)]

ghost use Rattle.std.specs.List.{fold};
ghost use Rattle.std.specs.Prelude.{bit_or, ◌≡◌, true, false, not, ℕ, ◌+◌, ◌-◌, ◌≤◌, ◌<◌, length, get_or};
ghost use Rattle.shape.specs.Sizes.{in_range, detectors_of};
ghost use Rattle.window.specs.Lists.{any, bit};
ghost use Rattle.flat.specs.Codes.{defect_of, correction_of};
ghost use Rattle.flat.specs.Plan.{place_in};
ghost use Rattle.flat.specs.Stored.{stored};
ghost use Rattle.leave.specs.Leaving.{committed_in, escaped_in};

use flat::{MARGIN, PLACES, PLANE, PLANES, Sizes, TABLE};
use shape::Shape;

// The bottom layer's correction bits, one byte an edge, where the table has its edges.
pub fn commit(edges: &[u8; PLANES], table: &[u16; TABLE], out: &mut [u8])
    requires out_len_bound { length out.old ≤ 1536 }
    requires by_index { (i : ℕ) → i < length out.old → place_in table.now i < 27648 }
    ensures { out.new ≡ committed_in table.now edges.now (length out.old) }
{
    for (i, byte) in out.iter_mut().enumerate() {
        let e = table[PLACES + i] as usize;
        *byte = u8::from(flat::corrected(edges[e]));
    }
}

// One row of detectors.
fn escape_row(at: usize, to: usize, n: usize, nodes: &[u8; PLANE], out: &mut [u8])
    requires { (at + n ≤ 4608) × (to + n ≤ length out.old) }
    ensures { out.new ≡ stored to (λ i. bit (defect_of (get_or nodes.now (at + i) 0))) n out.old }
{
    for (i, byte) in out[to..to + n].iter_mut().enumerate() {
        *byte = u8::from(flat::defect(nodes[at + i]));
    }
}

// The bottom sheet's defects, one byte a detector, row by row.
pub fn escape(z: Sizes, shape: Shape, nodes: &[u8; PLANE], out: &mut [u8])
    requires distance_value { in_range shape.height shape.distance ≡ true }
    requires sheet_le_nodes { (z.sheet ≤ z.nodes) × (z.nodes ≤ 3600) }
    requires out_len { length out.old ≡ detectors_of shape.height shape.distance }
    ensures { out.new ≡ escaped_in z shape.height shape.distance nodes.now }
{
    let h = shape.height as usize;
    let d = shape.distance as usize;
    let bottom = MARGIN + z.nodes - z.sheet;
    for r in 0..h {
        escape_row(bottom + 1 + r * (d + 1), r * (d - 1), d - 1, nodes, out);
    }
}

// No sheet is longer: a test of so many entries together is cheap, since their number is known.
const STRETCH: usize = 256;

// The bits of entries together.
fn bits_of(entries: &[u8]) -> u8
    ensures { result ≡ fold bit_or 0 entries.now }
{
    entries.iter().fold(0, |bits, v| bits | *v)
}

// The bits of a part's entries together, with those of all entries as far as the stretch goes: every bit where the stretch does not fit.
fn bits_on(at: usize, n: usize, entries: &[u8]) -> u8
    requires { at + n ≤ length entries.now }
    ensures most { (i : ℕ) → i < n → get_or entries.now (at + i) 0 ≤ result }
    ensures defects { defect_of result ≡ false → (i : ℕ) → i < n → defect_of (get_or entries.now (at + i) 0) ≡ false }
{
    if STRETCH < n || entries.len() - at < STRETCH {
        return u8::MAX;
    }
    bits_of(&entries[at..at + STRETCH])
}

// No edge of a part is corrected: mostly none is on the stretch either, and else they are looked at one by one.
pub fn is_blank(at: usize, n: usize, edges: &[u8; PLANES]) -> bool
    requires { at + n ≤ 27648 }
    ensures { result ≡ not (any n (λ i. correction_of (get_or edges.now (at + i) 0))) }
{
    bits_on(at, n, edges) < 4 || !flat::any_of(&edges[at..at + n], flat::corrected)
}

// No node of a part has a defect.
pub fn is_quiet(at: usize, n: usize, nodes: &[u8; PLANE]) -> bool
    requires { at + n ≤ 4608 }
    ensures { result ≡ not (any n (λ i. defect_of (get_or nodes.now (at + i) 0))) }
{
    !flat::defect(bits_on(at, n, nodes)) || !flat::any_of(&nodes[at..at + n], flat::defect)
}
