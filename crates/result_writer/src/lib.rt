// The writer of a round of the result stream. Each list is measured once, the room is tested once, and then all is written.
#![tactic(auto)]

ghost use Rattle.std.specs.Prelude.{◌≡◌, true, [], ◌≤◌, length, replicate};
ghost use Rattle.refusal.specs.Writing.{front, put_to, writing};
ghost use Rattle.number.specs.Number.{written_buffered};
ghost use Rattle.list.specs.Sheet.{are_bits};
ghost use Rattle.shape.specs.Sizes.{IsShape, detectors_of, layer_edges_of};
ghost use Rattle.record.specs.Records.{result as result_of};
ghost use Rattle.record.specs.Calls.{write_result, as_result};

use list_writer::{MeasuredList, measured, put_measured};
use number::{number_len, put_number};
use refusal::Refusal;
use shape::Shape;

// Writes a round of the result, of two lists that were measured, at the front of a buffer and answers its bytes; None, and nothing
// written, where it has no room.
fn put_result(
    edges: MeasuredList<'_>,
    escapes: MeasuredList<'_>,
    steps: u32,
    out: &mut [u8],
) -> Option<usize>
    ensures { put_to result out.new ≡ front out.old (result_of (as_result edges.entry.entries.now escapes.entry.entries.now steps)) }
{
    let room = out.len();
    if room < edges.len {
        return None;
    }
    if room - edges.len < escapes.len {
        return None;
    }
    if room - edges.len - escapes.len < number_len(steps as u64) {
        return None;
    }
    let i = put_measured(edges.entries, edges.ones, out);
    let j = i + put_measured(escapes.entries, escapes.ones, &mut out[i..]);
    Some(j + put_number(steps as u64, &mut out[j..]).unwrap())
}

// The same from an offset on, where all tests but that for room have passed.
fn put_from(
    edges: MeasuredList<'_>,
    escapes: MeasuredList<'_>,
    steps: u32,
    out: &mut [u8],
    at: usize,
) -> Result<usize, Refusal>
    requires at_in_bounds { at ≤ length out.old }
    ensures { written_buffered result out.new ≡ writing [] out.old at (result_of (as_result edges.entry.entries.now escapes.entry.entries.now steps)) }
{
    let count = put_result(edges, escapes, steps, &mut out[at..]).ok_or(Refusal::Room)?;
    Ok(at + count)
}

// Writes a round of the result from an offset on, for a caller who knows that only the room can be missing.
pub fn put_round(
    shape: Shape,
    edges: &[u8],
    escapes: &[u8],
    steps: u32,
    out: &mut [u8],
    at: usize,
) -> Result<usize, Refusal>
    requires shape { IsShape shape }
    requires edges_len { length edges.now ≡ layer_edges_of shape.model shape.height shape.distance }
    requires escapes_len { length escapes.now ≡ detectors_of shape.height shape.distance }
    requires edges_value { are_bits edges.now ≡ true }
    requires escapes_value { are_bits escapes.now ≡ true }
    requires at_in_bounds { at ≤ length out.old }
    ensures { written_buffered result out.new ≡ write_result shape (as_result edges.now escapes.now steps) out.old at }
{
    put_from(measured(edges), measured(escapes), steps, out, at)
}

// The same for a round with no committed edge and no escaped defect: all entries are 0, and none is looked at. Every list of zeros has the
// bytes of the empty one.
pub fn write_quiet(shape: Shape, steps: u32, out: &mut [u8], at: usize) -> Result<usize, Refusal>
    requires shape { IsShape shape }
    requires at_in_bounds { at ≤ length out.old }
    ensures { written_buffered result out.new ≡ write_result shape (as_result (replicate (layer_edges_of shape.model shape.height shape.distance) 0) (replicate (detectors_of shape.height shape.distance) 0) steps) out.old at }
{
    let none = MeasuredList {
        entries: &[],
        bits: 0,
        ones: 0,
        len: 1,
    };
    put_from(none, none, steps, out, at)
}

// Writes a round of the result from an offset on.
pub fn write_result(
    shape: Shape,
    edges: &[u8],
    escapes: &[u8],
    steps: u32,
    out: &mut [u8],
    at: usize,
) -> Result<usize, Refusal>
    ensures { written_buffered result out.new ≡ write_result shape (as_result edges.now escapes.now steps) out.old at }
{
    record::test_place(shape, out.len(), at)?;
    if edges.len() != extent::layer_edges(shape) {
        return Err(Refusal::Edges);
    }
    if escapes.len() != extent::detectors(shape) {
        return Err(Refusal::Escapes);
    }
    let first = measured(edges);
    if 1 < first.bits {
        return Err(Refusal::Byte);
    }
    let second = measured(escapes);
    if 1 < second.bits {
        return Err(Refusal::Byte);
    }
    put_from(first, second, steps, out, at)
}
