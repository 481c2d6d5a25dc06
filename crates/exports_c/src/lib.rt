// The static library for programs in C (include/baizeridge.h): each function hands what it is given to the function of its name in `crates/exports`,
// and states its clause again. `crates/exports` says what the calls have in common.
#![tactic(auto)]

ghost use Rattle.std.specs.Prelude.{◌≡◌};
ghost use Rattle.reply.specs.Reply.{reply, value_out, header_out, scan_out};
ghost use Rattle.exports.specs.Calls.{number_read, buffer_out, number_written, list_read, list_written, taken, header_read, header_taken, header_written, round_out, round_read, round_taken, round_written, result_out, result_read, result_taken, result_written, input_scanned, results_scanned, decode_out, stream_decoded};
ghost use Rattle.named.specs.Named.{nodes_by, detectors_by, edges_by};
ghost use Rattle.bound.specs.Bound.{step_bound};
ghost use Rattle.creation.specs.Creation.{allowed_shape};
ghost use Rattle.refusal.specs.Answer.{status};

// stays: these are the names and parameters of the C interface, so each function hands on to the one in `crates/exports`
#[unsafe(no_mangle)]
pub extern "C" fn baizeridge_read_number(
    src: &[u8],
    at: usize,
    value: &mut u32,
    place: &mut usize,
) -> u8
    ensures { value_out (reply result place.new) value.new ≡ number_read src.now at value.old place.old }
{
    exports::baizeridge_read_number(src, at, value, place)
}

#[unsafe(no_mangle)]
pub extern "C" fn baizeridge_write_number(
    n: u32,
    out: &mut [u8],
    at: usize,
    place: &mut usize,
) -> u8
    ensures { buffer_out (reply result place.new) out.new ≡ number_written n out.old at place.old }
{
    exports::baizeridge_write_number(n, out, at, place)
}

#[unsafe(no_mangle)]
pub extern "C" fn baizeridge_read_list(
    src: &[u8],
    at: usize,
    out: &mut [u8],
    place: &mut usize,
) -> u8
    ensures { buffer_out (reply result place.new) out.new ≡ list_read src.now at out.old place.old }
{
    exports::baizeridge_read_list(src, at, out, place)
}

#[unsafe(no_mangle)]
pub extern "C" fn baizeridge_write_list(
    entries: &[u8],
    out: &mut [u8],
    at: usize,
    place: &mut usize,
) -> u8
    ensures { buffer_out (reply result place.new) out.new ≡ list_written entries.now out.old at place.old }
{
    exports::baizeridge_write_list(entries, out, at, place)
}

#[unsafe(no_mangle)]
pub extern "C" fn baizeridge_take_header(
    src: &[u8],
    at: &mut usize,
    height: &mut u32,
    distance: &mut u32,
    model: &mut u32,
    place: &mut usize,
) -> u8
    ensures { taken (header_out (reply result place.new) height.new distance.new model.new) at.new ≡ header_taken src.now at.old height.old distance.old model.old place.old }
{
    exports::baizeridge_take_header(src, at, height, distance, model, place)
}

#[unsafe(no_mangle)]
pub extern "C" fn baizeridge_read_header(
    src: &[u8],
    at: usize,
    height: &mut u32,
    distance: &mut u32,
    model: &mut u32,
    place: &mut usize,
) -> u8
    ensures { header_out (reply result place.new) height.new distance.new model.new ≡ header_read src.now at height.old distance.old model.old place.old }
{
    exports::baizeridge_read_header(src, at, height, distance, model, place)
}

#[unsafe(no_mangle)]
pub extern "C" fn baizeridge_write_header(
    height: u32,
    distance: u32,
    model: u32,
    out: &mut [u8],
    at: usize,
    place: &mut usize,
) -> u8
    ensures { buffer_out (reply result place.new) out.new ≡ header_written height distance model out.old at place.old }
{
    exports::baizeridge_write_header(height, distance, model, out, at, place)
}

#[unsafe(no_mangle)]
pub extern "C" fn baizeridge_take_round(
    height: u32,
    distance: u32,
    model: u32,
    src: &[u8],
    at: &mut usize,
    defects: &mut [u8],
    place: &mut usize,
) -> u8
    ensures { taken (round_out (reply result place.new) defects.new) at.new ≡ round_taken height distance model src.now at.old defects.old place.old }
{
    exports::baizeridge_take_round(height, distance, model, src, at, defects, place)
}

#[unsafe(no_mangle)]
pub extern "C" fn baizeridge_read_round(
    height: u32,
    distance: u32,
    model: u32,
    src: &[u8],
    at: usize,
    defects: &mut [u8],
    place: &mut usize,
) -> u8
    ensures { round_out (reply result place.new) defects.new ≡ round_read height distance model src.now at defects.old place.old }
{
    exports::baizeridge_read_round(height, distance, model, src, at, defects, place)
}

#[unsafe(no_mangle)]
pub extern "C" fn baizeridge_write_round(
    height: u32,
    distance: u32,
    model: u32,
    defects: &[u8],
    out: &mut [u8],
    at: usize,
    place: &mut usize,
) -> u8
    ensures { buffer_out (reply result place.new) out.new ≡ round_written height distance model defects.now out.old at place.old }
{
    exports::baizeridge_write_round(height, distance, model, defects, out, at, place)
}

#[unsafe(no_mangle)]
pub extern "C" fn baizeridge_take_result(
    height: u32,
    distance: u32,
    model: u32,
    src: &[u8],
    at: &mut usize,
    edges: &mut [u8],
    escapes: &mut [u8],
    steps: &mut u32,
    place: &mut usize,
) -> u8
    ensures { taken (result_out (reply result place.new) edges.new escapes.new steps.new) at.new ≡ result_taken height distance model src.now at.old edges.old escapes.old steps.old place.old }
{
    exports::baizeridge_take_result(
        height, distance, model, src, at, edges, escapes, steps, place,
    )
}

#[unsafe(no_mangle)]
pub extern "C" fn baizeridge_read_result(
    height: u32,
    distance: u32,
    model: u32,
    src: &[u8],
    at: usize,
    edges: &mut [u8],
    escapes: &mut [u8],
    steps: &mut u32,
    place: &mut usize,
) -> u8
    ensures { result_out (reply result place.new) edges.new escapes.new steps.new ≡ result_read height distance model src.now at edges.old escapes.old steps.old place.old }
{
    exports::baizeridge_read_result(
        height, distance, model, src, at, edges, escapes, steps, place,
    )
}

#[unsafe(no_mangle)]
pub extern "C" fn baizeridge_write_result(
    height: u32,
    distance: u32,
    model: u32,
    edges: &[u8],
    escapes: &[u8],
    steps: u32,
    out: &mut [u8],
    at: usize,
    place: &mut usize,
) -> u8
    ensures { buffer_out (reply result place.new) out.new ≡ result_written height distance model edges.now escapes.now steps out.old at place.old }
{
    exports::baizeridge_write_result(
        height, distance, model, edges, escapes, steps, out, at, place,
    )
}

#[unsafe(no_mangle)]
pub extern "C" fn baizeridge_scan_input(
    src: &[u8],
    height: &mut u32,
    distance: &mut u32,
    model: &mut u32,
    rounds: &mut usize,
    place: &mut usize,
) -> u8
    ensures { scan_out (reply result place.new) height.new distance.new model.new rounds.new ≡ input_scanned src.now height.old distance.old model.old rounds.old place.old }
{
    exports::baizeridge_scan_input(src, height, distance, model, rounds, place)
}

#[unsafe(no_mangle)]
pub extern "C" fn baizeridge_scan_results(
    src: &[u8],
    height: &mut u32,
    distance: &mut u32,
    model: &mut u32,
    rounds: &mut usize,
    place: &mut usize,
) -> u8
    ensures { scan_out (reply result place.new) height.new distance.new model.new rounds.new ≡ results_scanned src.now height.old distance.old model.old rounds.old place.old }
{
    exports::baizeridge_scan_results(src, height, distance, model, rounds, place)
}

#[unsafe(no_mangle)]
pub extern "C" fn baizeridge_nodes(height: u32, distance: u32, model: u32) -> usize
    ensures { result ≡ nodes_by height distance model }
{
    exports::baizeridge_nodes(height, distance, model)
}

#[unsafe(no_mangle)]
pub extern "C" fn baizeridge_detectors(height: u32, distance: u32, model: u32) -> usize
    ensures { result ≡ detectors_by height distance model }
{
    exports::baizeridge_detectors(height, distance, model)
}

#[unsafe(no_mangle)]
pub extern "C" fn baizeridge_layer_edges(height: u32, distance: u32, model: u32) -> usize
    ensures { result ≡ edges_by height distance model }
{
    exports::baizeridge_layer_edges(height, distance, model)
}

#[unsafe(no_mangle)]
pub extern "C" fn baizeridge_step_bound(height: u32, distance: u32, model: u32) -> usize
    ensures { result ≡ step_bound height distance model }
{
    exports::baizeridge_step_bound(height, distance, model)
}

#[unsafe(no_mangle)]
pub extern "C" fn baizeridge_allowed(
    height: u32,
    distance: u32,
    model: u32,
    largest_height: u32,
    largest_distance: u32,
) -> u8
    ensures { result ≡ status (allowed_shape height distance model largest_height largest_distance) }
{
    exports::baizeridge_allowed(height, distance, model, largest_height, largest_distance)
}

#[unsafe(no_mangle)]
pub extern "C" fn baizeridge_decode(
    src: &[u8],
    out: &mut [u8],
    count: &mut usize,
    place: &mut usize,
) -> u8
    ensures { decode_out (reply result place.new) out.new count.new ≡ stream_decoded src.now out.old place.old }
{
    exports::baizeridge_decode(src, out, count, place)
}
