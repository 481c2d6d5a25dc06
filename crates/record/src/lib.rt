// The records of the input and of the result stream: a header, then one record a round. Readers on a slice and an offset, writers into a
// lent buffer from an offset. Whatever is refused leaves offset and buffers as they were. Here are the tests that calls on records begin
// with, and the header.
#![tactic(auto)]

ghost use Rattle.std.specs.Prelude.{◌≡◌};
ghost use Rattle.refusal.specs.Answer.{unless, done};
ghost use Rattle.refusal.specs.Writing.{front, put_to};
ghost use Rattle.number.specs.Number.{written_buffered};
ghost use Rattle.shape.specs.Sizes.{tested_answer};
ghost use Rattle.record.specs.Records.{header, header_at};
ghost use Rattle.record.specs.Calls.{header_answer, place_tests, write_header};

use number::{number_len, put_number, read_number};
use refusal::Refusal;
use shape::Shape;

// Tests a shape, and an offset in a slice of len bytes.
pub fn test_place(shape: Shape, len: usize, at: usize) -> Result<(), Refusal>
    ensures { tested_answer result ≡ unless (place_tests shape len at) (done tt 0) }
{
    extent::in_range(shape)?;
    if len < at {
        return Err(Refusal::Offset);
    }
    Ok(())
}

// Reads the header at an offset: the shape, and the offset behind it.
pub fn read_header(src: &[u8], at: usize) -> Result<(Shape, usize), Refusal>
    ensures { header_answer result ≡ header_at src.now at }
{
    let (height, next) = read_number(src, at)?;
    if !extent::height_ok(height) {
        return Err(Refusal::Height);
    }
    let (distance, last) = read_number(src, next)?;
    if !extent::distance_ok(distance) {
        return Err(Refusal::Distance);
    }
    let (model, behind) = read_number(src, last)?;
    if !extent::model_ok(model) {
        return Err(Refusal::Model);
    }
    let shape = Shape {
        height: height as u8,
        distance: distance as u8,
        model: model as u8,
    };
    Ok((shape, behind))
}

// Writes a header at the front of a buffer and answers its bytes; None, and nothing written, where it has no room.
fn put_header(shape: Shape, out: &mut [u8]) -> Option<usize>
    ensures { put_to result out.new ≡ front out.old (header shape) }
{
    let height = shape.height as u64;
    let distance = shape.distance as u64;
    let model = shape.model as u64;
    if out.len() < number_len(height) + number_len(distance) + number_len(model) {
        return None;
    }
    let i = put_number(height, out).unwrap();
    let j = i + put_number(distance, &mut out[i..]).unwrap();
    Some(j + put_number(model, &mut out[j..]).unwrap())
}

// Writes a header from an offset on.
pub fn write_header(shape: Shape, out: &mut [u8], at: usize) -> Result<usize, Refusal>
    ensures { written_buffered result out.new ≡ write_header shape out.old at }
{
    test_place(shape, out.len(), at)?;
    let count = put_header(shape, &mut out[at..]).ok_or(Refusal::Room)?;
    Ok(at + count)
}
