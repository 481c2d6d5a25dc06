// Streams read by a reader that is carried, with plain parameters: one record at an offset, and a whole stream.
#![tactic(auto)]

ghost use Rattle.std.specs.Prelude.{◌≡◌, length};
ghost use Rattle.refusal.specs.Answer.{next_or};
ghost use Rattle.refusal.specs.Writing.{buffered};
ghost use Rattle.record.specs.Records.{header_at};
ghost use Rattle.record.specs.Calls.{header_answer, round_answer, result_answer, read_round, result_buffered, read_result};
ghost use Rattle.trip.specs.Streams.{input_of, results_of};
ghost use Rattle.scan.specs.Scanned.{scanned, stream_answer};

use reader::Reader;
use refusal::Refusal;
use scan::{InputRounds, ResultRounds};
use shape::Shape;

// Takes the header at an offset, which moves behind it, or stays where nothing is read.
pub fn take_header(src: &[u8], at: &mut usize) -> Result<(Shape, usize), Refusal>
    ensures { (header_answer result ≡ header_at src.now at.old) × (at.new ≡ next_or (header_answer result) at.old) }
{
    let mut reader = Reader { src, at: *at };
    let read = reader.header();
    *at = reader.at;
    read
}

// Takes the round of the input at an offset, which moves behind it, or stays where nothing is read.
pub fn take_round(
    shape: Shape,
    src: &[u8],
    at: &mut usize,
    defects: &mut [u8],
) -> Result<Option<usize>, Refusal>
    ensures { (buffered (round_answer result) defects.new ≡ read_round shape src.now at.old defects.old) × (at.new ≡ next_or (round_answer result) at.old) }
{
    let mut reader = Reader { src, at: *at };
    let read = reader.round(shape, defects);
    *at = reader.at;
    read
}

// Takes the round of the result at an offset, which moves behind it, or stays where nothing is read.
pub fn take_result(
    shape: Shape,
    src: &[u8],
    at: &mut usize,
    edges: &mut [u8],
    escapes: &mut [u8],
) -> Result<Option<(u32, usize)>, Refusal>
    ensures { (result_buffered (result_answer result) edges.new escapes.new ≡ read_result shape src.now at.old edges.old escapes.old) × (at.new ≡ next_or (result_answer result) at.old) }
{
    let mut reader = Reader { src, at: *at };
    let read = reader.result(shape, edges, escapes);
    *at = reader.at;
    read
}

// Reads a whole input stream, and stores nothing.
pub fn scan_input(src: &[u8]) -> Result<(Shape, usize), Refusal>
    ensures { stream_answer result (length src.now) ≡ scanned (input_of src.now) }
{
    scan::scan::<InputRounds>(src)
}

// Reads a whole result stream, and stores nothing.
pub fn scan_results(src: &[u8]) -> Result<(Shape, usize), Refusal>
    ensures { stream_answer result (length src.now) ≡ scanned (results_of src.now) }
{
    scan::scan::<ResultRounds>(src)
}
