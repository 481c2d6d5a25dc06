// The new top sheet on the flat machine's arrays: its nodes, its edges and its defects.
#![tactic(auto)]

ghost use Rattle.std.specs.List.{fold};
ghost use Rattle.std.specs.Prelude.{bit_or, nat_eq, ◌≡◌, true, ℕ, ◌+◌, ◌*◌, ◌%◌, ◌≤◌, ◌<◌, length, get_or};
ghost use Rattle.shape.specs.Sizes.{in_range, detectors_of};
ghost use Rattle.flat.specs.Entries.{plane};
ghost use Rattle.flat.specs.Stored.{stored};
ghost use Rattle.top_sheet.specs.Received.{Received, place_of, put_one, put_from};

use flat::{MARGIN, PLANE, PLANES, Sizes, TABLE};
use shape::Shape;

// The nodes' own numbers.
pub fn fresh_marks(z: Sizes, marks: &mut [u16; PLANE], table: &[u16; TABLE])
    requires { z.sheet ≤ 240 }
    ensures { marks.new ≡ stored 512 (λ i. get_or table.now (512 + i) 0) z.sheet marks.old }
{
    // stays: the library's copy of a slice needs memmove, which the archive does not ask of its C library
    for (i, mark) in marks[MARGIN..MARGIN + z.sheet].iter_mut().enumerate() {
        *mark = table[MARGIN + i];
    }
}

// Edges with no growth, and places with no edge, as the table has them.
pub fn lay_edges(at: usize, n: usize, from: usize, edges: &mut [u8; PLANES], table: &[u16; TABLE])
    requires { (at + n ≤ 27648) × (from + n ≤ 7680) }
    ensures { edges.new ≡ stored at (λ i. get_or table.now (from + i) 0 % 4) n edges.old }
{
    let entries = &table[from..from + n];
    for (i, edge) in edges[at..at + n].iter_mut().enumerate() {
        *edge = (entries[i] % 4) as u8;
    }
}

// Bytes that are looked at together: in most rounds few are set.
const BLOCK: usize = 16;

// No byte of a block is set.
fn none_set(block: &[u8]) -> bool
    ensures { result ≡ nat_eq (fold bit_or 0 block.now) 0 }
{
    block.iter().fold(0, |bits, byte| bits | *byte) == 0
}

// A detector's defect, by its byte.
fn put(j: usize, d: usize, byte: u8, nodes: &mut [u8; PLANE])
    requires { (2 ≤ d) × (d ≤ 15) × (place_of d j < 4608) }
    ensures { nodes.new ≡ put_one d j byte nodes.old }
{
    if byte == 1 {
        nodes[MARGIN + 1 + (j / (d - 1) * (d + 1) + j % (d - 1))] = 2;
    }
}

fn put_part(from: usize, n: usize, d: usize, bytes: &[u8], nodes: &mut [u8; PLANE])
    requires le_d { (2 ≤ d) × (d ≤ 15) × (from + n ≤ length bytes.now) }
    requires by_index { (j : ℕ) → j < length bytes.now → place_of d j < 4608 }
    ensures { nodes.new ≡ put_from d bytes.now from n nodes.old }
{
    for i in from..from + n {
        put(i, d, bytes[i], nodes);
    }
}

fn put_block(from: usize, d: usize, bytes: &[u8], nodes: &mut [u8; PLANE])
    requires le_d { (2 ≤ d) × (d ≤ 15) × (from + 16 ≤ length bytes.now) }
    requires by_index { (j : ℕ) → j < length bytes.now → place_of d j < 4608 }
    ensures { nodes.new ≡ put_from d bytes.now from 16 nodes.old }
{
    if !none_set(&bytes[from..from + BLOCK]) {
        put_part(from, BLOCK, d, bytes, nodes);
    }
}

// The defects of a top sheet that is cleared; its boundary nodes stay.
pub fn receive(shape: Shape, bytes: &[u8], nodes: &mut [u8; PLANE])
    requires distance_value { in_range shape.height shape.distance ≡ true }
    requires bytes_len { length bytes.now ≡ detectors_of shape.height shape.distance }
    requires nodes_len { length nodes.old ≡ plane }
    requires by_index { (x : ℕ) → x < shape.height * (shape.distance + 1) → get_or nodes.old (512 + x) 0 ≡ 0 }
    ensures { Received shape.height shape.distance bytes.now nodes.old nodes.new }
{
    let d = shape.distance as usize;
    let blocks = bytes.len() / BLOCK;
    for k in 0..blocks {
        put_block(k * BLOCK, d, bytes, nodes);
    }
    let rest = blocks * BLOCK;
    put_part(rest, bytes.len() - rest, d, bytes, nodes);
}
