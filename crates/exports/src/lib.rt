// Streams and decoding for programs in C, to which `crates/exports_c` hands each function on by its name: numbers, byte slices and lent numbers only.
// Each call ensures one equation, between a record of what its caller sees, by the header's names, and what `specs/Calls.antt` makes of the
// arguments. `crates/reply` has the status and the place, `crates/named` the shape that a height, a distance and a model name, with its sizes,
// `crates/bound` the bound on merging steps, and `crates/creation` whether a caller's limits allow a shape.
//
// A reader or writer returns 0 where it is done, 255 where no bytes are left, and else the refusal's number; unless it returns 0, it leaves
// every buffer, value and lent offset as it was. `place` takes the offset behind the record, or that of the number's first byte with 7, 8 and 9,
// and is left alone otherwise. `baizeridge_decode` alone keeps what it finished: however it ends, `count` takes the length of what was written
// at the front of `out`, the header if it was read and the finished rounds, and the bytes behind stay.
#![tactic(auto)]

ghost use Rattle.std.specs.Prelude.{◌≡◌};
ghost use Rattle.reply.specs.Reply.{reply, value_out, header_out, scan_out};
ghost use Rattle.exports.specs.Calls.{number_read, buffer_out, number_written, list_read, list_written, taken, header_read, header_taken, header_written, round_out, round_read, round_taken, round_written, result_out, result_read, result_taken, result_written, input_scanned, results_scanned, decode_out, stream_decoded};
ghost use Rattle.named.specs.Named.{nodes_by, detectors_by, edges_by};
ghost use Rattle.bound.specs.Bound.{step_bound};
ghost use Rattle.creation.specs.Creation.{allowed_shape};
ghost use Rattle.refusal.specs.Answer.{status};

// stays: a status is a number, and a shape, its offset and its values are single parameters, since the C interface has them so
pub fn baizeridge_read_number(src: &[u8], at: usize, value: &mut u32, place: &mut usize) -> u8
    ensures { value_out (reply result place.new) value.new ≡ number_read src.now at value.old place.old }
{
    reply::number(number::read_number(src, at), value, place)
}

pub fn baizeridge_write_number(n: u32, out: &mut [u8], at: usize, place: &mut usize) -> u8
    ensures { buffer_out (reply result place.new) out.new ≡ number_written n out.old at place.old }
{
    reply::offset(number::write_number(n, out, at), place)
}

pub fn baizeridge_read_list(src: &[u8], at: usize, out: &mut [u8], place: &mut usize) -> u8
    ensures { buffer_out (reply result place.new) out.new ≡ list_read src.now at out.old place.old }
{
    reply::offset(list::read_list(src, at, out), place)
}

pub fn baizeridge_write_list(entries: &[u8], out: &mut [u8], at: usize, place: &mut usize) -> u8
    ensures { buffer_out (reply result place.new) out.new ≡ list_written entries.now out.old at place.old }
{
    reply::offset(list_writer::write_list(entries, out, at), place)
}

// A reader `take_` moves the lent offset behind the record, and leaves it where none was read; `read_` is the same with an offset by value.
pub fn baizeridge_take_header(
    src: &[u8],
    at: &mut usize,
    height: &mut u32,
    distance: &mut u32,
    model: &mut u32,
    place: &mut usize,
) -> u8
    ensures { taken (header_out (reply result place.new) height.new distance.new model.new) at.new ≡ header_taken src.now at.old height.old distance.old model.old place.old }
{
    let read = stream::take_header(src, at);
    reply::header(read, height, distance, model, place)
}

pub fn baizeridge_read_header(
    src: &[u8],
    at: usize,
    height: &mut u32,
    distance: &mut u32,
    model: &mut u32,
    place: &mut usize,
) -> u8
    ensures { header_out (reply result place.new) height.new distance.new model.new ≡ header_read src.now at height.old distance.old model.old place.old }
{
    let mut from = at;
    baizeridge_take_header(src, &mut from, height, distance, model, place)
}

pub fn baizeridge_write_header(
    height: u32,
    distance: u32,
    model: u32,
    out: &mut [u8],
    at: usize,
    place: &mut usize,
) -> u8
    ensures { buffer_out (reply result place.new) out.new ≡ header_written height distance model out.old at place.old }
{
    let shape = named::shape_by(height, distance, model);
    reply::offset(record::write_header(shape, out, at), place)
}

pub fn baizeridge_take_round(
    height: u32,
    distance: u32,
    model: u32,
    src: &[u8],
    at: &mut usize,
    defects: &mut [u8],
    place: &mut usize,
) -> u8
    ensures { taken (round_out (reply result place.new) defects.new) at.new ≡ round_taken height distance model src.now at.old defects.old place.old }
{
    let shape = named::shape_by(height, distance, model);
    reply::round(stream::take_round(shape, src, at, defects), place)
}

pub fn baizeridge_read_round(
    height: u32,
    distance: u32,
    model: u32,
    src: &[u8],
    at: usize,
    defects: &mut [u8],
    place: &mut usize,
) -> u8
    ensures { round_out (reply result place.new) defects.new ≡ round_read height distance model src.now at defects.old place.old }
{
    let mut from = at;
    baizeridge_take_round(height, distance, model, src, &mut from, defects, place)
}

pub fn baizeridge_write_round(
    height: u32,
    distance: u32,
    model: u32,
    defects: &[u8],
    out: &mut [u8],
    at: usize,
    place: &mut usize,
) -> u8
    ensures { buffer_out (reply result place.new) out.new ≡ round_written height distance model defects.now out.old at place.old }
{
    let shape = named::shape_by(height, distance, model);
    reply::offset(input::write_round(shape, defects, out, at), place)
}

pub fn baizeridge_take_result(
    height: u32,
    distance: u32,
    model: u32,
    src: &[u8],
    at: &mut usize,
    edges: &mut [u8],
    escapes: &mut [u8],
    steps: &mut u32,
    place: &mut usize,
) -> u8
    ensures { taken (result_out (reply result place.new) edges.new escapes.new steps.new) at.new ≡ result_taken height distance model src.now at.old edges.old escapes.old steps.old place.old }
{
    let shape = named::shape_by(height, distance, model);
    let read = stream::take_result(shape, src, at, edges, escapes);
    reply::result(read, steps, place)
}

pub fn baizeridge_read_result(
    height: u32,
    distance: u32,
    model: u32,
    src: &[u8],
    at: usize,
    edges: &mut [u8],
    escapes: &mut [u8],
    steps: &mut u32,
    place: &mut usize,
) -> u8
    ensures { result_out (reply result place.new) edges.new escapes.new steps.new ≡ result_read height distance model src.now at edges.old escapes.old steps.old place.old }
{
    let mut from = at;
    baizeridge_take_result(
        height, distance, model, src, &mut from, edges, escapes, steps, place,
    )
}

pub fn baizeridge_write_result(
    height: u32,
    distance: u32,
    model: u32,
    edges: &[u8],
    escapes: &[u8],
    steps: u32,
    out: &mut [u8],
    at: usize,
    place: &mut usize,
) -> u8
    ensures { buffer_out (reply result place.new) out.new ≡ result_written height distance model edges.now escapes.now steps out.old at place.old }
{
    let shape = named::shape_by(height, distance, model);
    let written = result_writer::write_result(shape, edges, escapes, steps, out, at);
    reply::offset(written, place)
}

// Reads a whole input stream. The place takes its length.
pub fn baizeridge_scan_input(
    src: &[u8],
    height: &mut u32,
    distance: &mut u32,
    model: &mut u32,
    rounds: &mut usize,
    place: &mut usize,
) -> u8
    ensures { scan_out (reply result place.new) height.new distance.new model.new rounds.new ≡ input_scanned src.now height.old distance.old model.old rounds.old place.old }
{
    let read = stream::scan_input(src);
    reply::stream(read, src.len(), height, distance, model, rounds, place)
}

// Reads a whole result stream in the same way.
pub fn baizeridge_scan_results(
    src: &[u8],
    height: &mut u32,
    distance: &mut u32,
    model: &mut u32,
    rounds: &mut usize,
    place: &mut usize,
) -> u8
    ensures { scan_out (reply result place.new) height.new distance.new model.new rounds.new ≡ results_scanned src.now height.old distance.old model.old rounds.old place.old }
{
    let read = stream::scan_results(src);
    reply::stream(read, src.len(), height, distance, model, rounds, place)
}

// The sizes of a shape, 0 where it is refused: the nodes of its window,
pub fn baizeridge_nodes(height: u32, distance: u32, model: u32) -> usize
    ensures { result ≡ nodes_by height distance model }
{
    named::nodes(height, distance, model)
}

// the detectors of a sheet,
pub fn baizeridge_detectors(height: u32, distance: u32, model: u32) -> usize
    ensures { result ≡ detectors_by height distance model }
{
    named::detectors(height, distance, model)
}

// and the edges of a layer.
pub fn baizeridge_layer_edges(height: u32, distance: u32, model: u32) -> usize
    ensures { result ≡ edges_by height distance model }
{
    named::layer_edges(height, distance, model)
}

// The most merging steps of a merging stage in a window of the shape; 0 where it is refused.
pub fn baizeridge_step_bound(height: u32, distance: u32, model: u32) -> usize
    ensures { result ≡ step_bound height distance model }
{
    bound::step_bound(height, distance, model)
}

// S-6: whether the caller's largest height and distance allow a shape, told before there is a window: 0, else the refusal's number.
pub fn baizeridge_allowed(
    height: u32,
    distance: u32,
    model: u32,
    largest_height: u32,
    largest_distance: u32,
) -> u8
    ensures { result ≡ status (allowed_shape height distance model largest_height largest_distance) }
{
    creation::allowed(height, distance, model, largest_height, largest_distance)
}

// Decodes a whole input stream. The result stream goes to the front of out, and count takes its length, however it ends: the header's bytes, if
// it was read and had room, and those of the finished rounds; the bytes behind them stay as they were. Returns 0 where the input's end is reached,
// 254 where a round ends spent, and none does (crates/rests), else the refusal's number; place takes the offset that a refusal carries.
pub fn baizeridge_decode(src: &[u8], out: &mut [u8], count: &mut usize, place: &mut usize) -> u8
    ensures { decode_out (reply result place.new) out.new count.new ≡ stream_decoded src.now out.old place.old }
{
    let given = session::decode(src, out);
    reply::ending(given.ending, given.count, count, place)
}
