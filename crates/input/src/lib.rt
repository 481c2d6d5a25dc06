// A round of the input stream: its reader and its writer.
#![tactic(auto)]

ghost use Rattle.std.specs.Prelude.{◌≡◌};
ghost use Rattle.refusal.specs.Writing.{buffered};
ghost use Rattle.number.specs.Number.{written_buffered};
ghost use Rattle.record.specs.Calls.{round_answer, read_round, write_round};

use refusal::Refusal;
use shape::Shape;

// Reads the round of the input at an offset into a buffer of one byte a detector: the offset behind it, or None where no bytes are left.
pub fn read_round(
    shape: Shape,
    src: &[u8],
    at: usize,
    defects: &mut [u8],
) -> Result<Option<usize>, Refusal>
    ensures { buffered (round_answer result) defects.new ≡ read_round shape src.now at defects.old }
{
    record::test_place(shape, src.len(), at)?;
    if defects.len() != extent::detectors(shape) {
        return Err(Refusal::Detectors);
    }
    if src.len() <= at {
        return Ok(None);
    }
    let next = list::read_list(src, at, defects)?;
    Ok(Some(next))
}

// Writes a round of the input from an offset on.
pub fn write_round(
    shape: Shape,
    defects: &[u8],
    out: &mut [u8],
    at: usize,
) -> Result<usize, Refusal>
    ensures { written_buffered result out.new ≡ write_round shape defects.now out.old at }
{
    record::test_place(shape, out.len(), at)?;
    if defects.len() != extent::detectors(shape) {
        return Err(Refusal::Detectors);
    }
    if !list_writer::are_bits(defects) {
        return Err(Refusal::Byte);
    }
    let count = list_writer::put_list(defects, &mut out[at..]).ok_or(Refusal::Room)?;
    Ok(at + count)
}
