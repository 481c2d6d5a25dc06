// What a call answers to a program in C: the status that it returns, the place and the values that it is lent.
#![tactic(auto)]

ghost use Rattle.std.specs.Prelude.{◌≡◌};
ghost use Rattle.refusal.specs.Answer.{turned, to_offset};
ghost use Rattle.number.specs.Number.{number_answer};
ghost use Rattle.record.specs.Calls.{header_answer, round_answer, result_answer};
ghost use Rattle.scan.specs.Scanned.{stream_answer};
ghost use Rattle.decoding.specs.Answers.{line_of};
ghost use Rattle.reply.specs.Reply.{reply, replied, value_out, value_by, header_out, header_by, scan_out, scan_by, count_by};

use decoding::Ending;
use refusal::Refusal;
use shape::Shape;

// stays: a status is a number, and a shape goes to three lent numbers, since the C interface has them so
// The status where no bytes are left, and where a decoding ends with a round that is spent.
const END: u8 = 255;

const SPENT: u8 = 254;

// A refusal's number; the place takes its offset, where it carries one.
pub fn refuse(f: Refusal, place: &mut usize) -> u8
    ensures { reply result place.new ≡ replied (turned {A = Unit {0}} f) place.old }
{
    *place = f.place().unwrap_or(*place);
    u8::from(f)
}

// The offset behind a list that was read, or behind what was written.
pub fn offset(r: Result<usize, Refusal>, place: &mut usize) -> u8
    ensures { reply result place.new ≡ replied (to_offset r) place.old }
{
    match r {
        Ok(behind) => {
            *place = behind;
            0
        }
        Err(f) => refuse(f, place),
    }
}

// A number, which goes to the value.
pub fn number(n: Result<(u32, usize), Refusal>, value: &mut u32, place: &mut usize) -> u8
    ensures { value_out (reply result place.new) value.new ≡ value_by (number_answer n) value.old place.old }
{
    match n {
        Ok((read, next)) => {
            *value = read;
            *place = next;
            0
        }
        Err(f) => refuse(f, place),
    }
}

// A header, whose shape goes to height, distance and model.
pub fn header(
    h: Result<(Shape, usize), Refusal>,
    height: &mut u32,
    distance: &mut u32,
    model: &mut u32,
    place: &mut usize,
) -> u8
    ensures { header_out (reply result place.new) height.new distance.new model.new ≡ header_by (header_answer h) height.old distance.old model.old place.old }
{
    match h {
        Ok((shape, next)) => {
            *height = u32::from(shape.height);
            *distance = u32::from(shape.distance);
            *model = u32::from(shape.model);
            *place = next;
            0
        }
        Err(f) => refuse(f, place),
    }
}

// A round of the input.
pub fn round(d: Result<Option<usize>, Refusal>, place: &mut usize) -> u8
    ensures { reply result place.new ≡ replied (round_answer d) place.old }
{
    match d {
        Ok(Some(next)) => {
            *place = next;
            0
        }
        Ok(None) => END,
        Err(f) => refuse(f, place),
    }
}

// A round of the result, whose steps go to the value.
pub fn result(d: Result<Option<(u32, usize)>, Refusal>, value: &mut u32, place: &mut usize) -> u8
    ensures { value_out (reply result place.new) value.new ≡ value_by (result_answer d) value.old place.old }
{
    match d {
        Ok(Some((steps, next))) => {
            *value = steps;
            *place = next;
            0
        }
        Ok(None) => END,
        Err(f) => refuse(f, place),
    }
}

// A whole stream of so many bytes.
pub fn stream(
    s: Result<(Shape, usize), Refusal>,
    len: usize,
    height: &mut u32,
    distance: &mut u32,
    model: &mut u32,
    rounds: &mut usize,
    place: &mut usize,
) -> u8
    ensures { scan_out (reply result place.new) height.new distance.new model.new rounds.new ≡ scan_by (stream_answer s len) height.old distance.old model.old rounds.old place.old }
{
    match s {
        Ok((shape, count)) => {
            *height = u32::from(shape.height);
            *distance = u32::from(shape.distance);
            *model = u32::from(shape.model);
            *rounds = count;
            *place = len;
            0
        }
        Err(f) => refuse(f, place),
    }
}

// How a decoding ended; the count takes the length of what it wrote.
pub fn ending(e: Ending, written: usize, count: &mut usize, place: &mut usize) -> u8
    ensures { value_out (reply result place.new) count.new ≡ count_by (line_of e) written place.old }
{
    *count = written;
    match e {
        Ending::Finished => 0,
        Ending::Spent => SPENT,
        Ending::Refused(f) => refuse(f, place),
    }
}
