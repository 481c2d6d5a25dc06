// The reader of a round of the result stream.
#![tactic(auto)]

ghost use Rattle.std.specs.Prelude.{◌≡◌, true, length};
ghost use Rattle.refusal.specs.Answer.{reading, is_done, value_or};
ghost use Rattle.record.specs.Records.{result_from, result_edges, result_escapes};
ghost use Rattle.record.specs.Calls.{result_answer, result_buffered, read_result, steps_of};

use refusal::Refusal;
use shape::Shape;

// Reads a round of the result, with lists of so many edges and detectors, and stores nothing: its merging steps, and the offset behind it.
fn scan_result(
    src: &[u8],
    at: usize,
    edges: usize,
    detectors: usize,
) -> Result<(u32, usize), Refusal>
    ensures { reading result ≡ steps_of (result_from src.now edges detectors at) }
{
    let next = list::scan_list(src, at, edges)?;
    let last = list::scan_list(src, next, detectors)?;
    number::read_number(src, last)
}

// Stores the lists of a round of the result that can be read, as a scan before has shown: with it two passes over their numbers, since the
// buffers must stay as they were where a round is refused.
fn store_result(src: &[u8], at: usize, edges: &mut [u8], escapes: &mut [u8])
    requires { is_done (result_from src.now (length edges.old) (length escapes.old) at) ≡ true }
    ensures edges_after { edges.new ≡ value_or (result_from src.now (length edges.old) (length escapes.old) at) result_edges edges.old }
    ensures escapes_after { escapes.new ≡ value_or (result_from src.now (length edges.old) (length escapes.old) at) result_escapes escapes.old }
{
    let next = list::store_list(src, at, edges).unwrap();
    list::store_list(src, next, escapes).unwrap();
}

// Reads the round of the result at an offset into buffers of one byte an edge and one byte a detector: its merging steps and the offset
// behind it, or None where no bytes are left.
pub fn read_result(
    shape: Shape,
    src: &[u8],
    at: usize,
    edges: &mut [u8],
    escapes: &mut [u8],
) -> Result<Option<(u32, usize)>, Refusal>
    ensures { result_buffered (result_answer result) edges.new escapes.new ≡ read_result shape src.now at edges.old escapes.old }
{
    record::test_place(shape, src.len(), at)?;
    if edges.len() != extent::layer_edges(shape) {
        return Err(Refusal::Edges);
    }
    if escapes.len() != extent::detectors(shape) {
        return Err(Refusal::Escapes);
    }
    if src.len() <= at {
        return Ok(None);
    }
    let read = scan_result(src, at, edges.len(), escapes.len())?;
    store_result(src, at, edges, escapes);
    Ok(Some(read))
}
