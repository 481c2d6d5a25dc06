// Plays a script of calls on one window and says what each call answered, so that the calls can be held against another decoder.
//
// The script is text, at most 65,536 bytes: a command a line, by its first letter (with `r` by its second too), then numbers in decimal.
//
//   open H D M LH LD         a fresh window of height H, distance D and noise model M, for a largest height LH and a largest distance LD;
//                            where it is refused, the one that the call gives
//   round E S BYTES          a round: edge and escape buffers of E and S bytes (at most 1,280 and 256), each byte 7 before the call;
//                            the slice's bytes as digits, one a byte (at most 256; none if the line ends)
//   raw E S BYTES            a raw round, likewise: the bytes are measurements
//   grow
//   merging N                merging steps, at least one and at most N, up to one that is not busy
//   run B                    a run with budget B
//   dims H D M               edits of the window: its shape,
//   stage S                  0 rest, 1 to grow, else merging,
//   next N
//   entry I A D U P M        node I in the internal order: active, defect, unrooted (0 or 1), pointer, mark (65,536 or more: reset),
//   halves I N               the growth at I,
//   flip I B                 the correction bit at I,
//   last I B                 the bit at I of the last measured sheet (nothing if it has none there).
//   # ..                     is written as it stands.
//
// A line is written for each call and each edit: its name; `done`, `busy`, `rest`, of a run `rest` or `spent` and the count of steps, or
// `refused` and the number; of a round, raw or not, the two buffers after the call, a digit a byte (`?` from 10 on); a digest of all the
// window but the last measured sheet; and that sheet's bits as a binary number, the first one highest, modulo a prime, in decimal.
#![tactic(auto)]

ghost use Rattle.std.specs.Prelude.{◌≤◌, length};

use calls::{Merged, Outcome};
use refusal::Refusal;
use shape::Shape;
use std::io;
use window::{Given, Mark, Node, Stage, Window};

// The bytes of the buffer that holds the script.
const SCRIPT_BYTES: usize = 65536;

// The largest edge and escape buffers; a slice of a round is as large as the second.
const MOST_EDGES: usize = 1280;

const MOST_ESCAPES: usize = 256;

// The prime of the digest, below 2^55.
const PRIME: u64 = 36028797018963913;

// THE DIGEST: a polynomial modulo the prime.

fn mix(digest: u64, x: u64) -> u64 {
    ((digest % PRIME) * 259 + x % 4294967296 + 1) % PRIME
}

fn mark_code(mark: Mark) -> u64 {
    match mark {
        Mark::Reset => 65536,
        Mark::Root(m) => u64::from(m),
    }
}

fn mix_node(digest: u64, node: Node) -> u64 {
    let a = mix(digest, u64::from(node.active));
    let b = mix(a, u64::from(node.defect));
    let c = mix(b, u64::from(node.unrooted));
    let d = mix(c, u64::from(node.pointer));
    mix(d, mark_code(node.mark))
}

fn digest(w: &Window) -> u64 {
    let a = mix(0, u64::from(w.shape.height));
    let b = mix(a, u64::from(w.shape.distance));
    let c = mix(b, u64::from(w.shape.model));
    let d = mix(c, w.stage as u64);
    let e = mix(d, u64::from(w.next));
    let f = w.nodes.iter().fold(e, |sum, node| mix_node(sum, *node));
    let g = w
        .growth
        .iter()
        .fold(f, |sum, halves| mix(sum, u64::from(*halves)));
    w.correction
        .iter()
        .fold(g, |sum, bit| mix(sum, u64::from(*bit)))
}

// One binary digit more, modulo the same prime.
fn append(sum: u64, set: bool) -> u64 {
    ((sum % PRIME) * 2 + u64::from(set)) % PRIME
}

// WHAT IS WRITTEN. Where standard output cannot be written, nothing is told.

fn say(rt: &impl Print, text: &[u8]) {
    let _ = rt.write_all(text);
}

fn say_refused(rt: &impl Print, f: Refusal) {
    let number = u8::from(f);
    let _ = print!(rt; "refused {number} ");
}

fn say_done(rt: &impl Print, answer: Result<(), Refusal>) {
    match answer {
        Ok(()) => say(rt, b"done "),
        Err(f) => say_refused(rt, f),
    }
}

fn say_merged(rt: &impl Print, answer: Result<Merged, Refusal>) {
    match answer {
        Ok(Merged::Busy) => say(rt, b"busy "),
        Ok(Merged::Rest) => say(rt, b"rest "),
        Err(f) => say_refused(rt, f),
    }
}

fn say_outcome(rt: &impl Print, answer: Result<Outcome, Refusal>) {
    match answer {
        Ok(Outcome::Rest(n)) => {
            say(rt, b"rest ");
            let _ = print!(rt; "{n} ");
        }
        Ok(Outcome::Spent(n)) => {
            say(rt, b"spent ");
            let _ = print!(rt; "{n} ");
        }
        Err(f) => say_refused(rt, f),
    }
}

fn say_window(rt: &impl Print, w: &Window) {
    let digest = digest(w);
    let measured = w.measured.iter().fold(0, |sum, bit| append(sum, *bit));
    let _ = println!(rt; "{digest:014x} {measured}");
}

fn digit(x: u8) -> u8 {
    if x < 10 {
        return b'0' + x;
    }
    b'?'
}

// Turns a buffer into digits, and writes it.
fn say_buffer(rt: &impl Print, buffer: &mut [u8]) {
    for x in buffer.iter_mut() {
        *x = digit(*x);
    }
    say(rt, buffer);
    say(rt, b" ");
}

// THE SCRIPT. A text is what is left of it.

// The digits at the start of a text.
fn digits(text: &[u8]) -> &[u8]
    ensures { length result.now ≤ length text.now }
{
    let end = text
        .iter()
        .position(|x| !x.is_ascii_digit())
        .unwrap_or(text.len());
    &text[..end]
}

// The next number of a text, modulo 2^32, and the text behind it.
fn number(text: &[u8]) -> (u32, &[u8]) {
    let first = text
        .iter()
        .position(|x| x.is_ascii_digit())
        .unwrap_or(text.len());
    let rest = &text[first..];
    let digits = digits(rest);
    let value = digits.iter().fold(0u32, |value, x| {
        value
            .wrapping_mul(10)
            .wrapping_add(u32::from(x.saturating_sub(b'0')))
    });
    (value, &rest[digits.len()..])
}

// Stores the digits behind the first byte of a text, one a byte, as many as there is room for; how many these are.
fn store_digits(text: &[u8], out: &mut [u8]) -> usize
    ensures { result ≤ length out.new }
{
    let digits = digits(text.get(1..).unwrap_or(&[]));
    for (byte, x) in out.iter_mut().zip(digits) {
        *byte = x.saturating_sub(b'0');
    }
    digits.len().min(out.len())
}

fn byte(x: u32) -> u8 {
    (x % 256) as u8
}

// THE CALLS

fn open(rt: &impl Print, text: &[u8]) -> Window {
    let (height, text) = number(text);
    let (distance, text) = number(text);
    let (model, text) = number(text);
    let (largest_height, text) = number(text);
    let (largest_distance, _) = number(text);
    let given = fresh::fresh(height, distance, model, largest_height, largest_distance);
    say(rt, b"open ");
    say_done(rt, given.answer);
    given.window
}

// A round call, by its name in the script. Each byte of the buffers is 7 before it: what no call leaves.
fn round<F: Fn(Window, &[u8], &mut [u8], &mut [u8]) -> Given<()>>(
    rt: &impl Print,
    name: &[u8],
    call: F,
    text: &[u8],
    w: Window,
) -> Window
    requires { F.IsAlwaysCallable call }
{
    let (edges, text) = number(text);
    let (escapes, text) = number(text);
    let mut bytes = [0; MOST_ESCAPES];
    let n = store_digits(text, &mut bytes);
    let mut edge_buffer = [7; MOST_EDGES];
    let mut escape_buffer = [7; MOST_ESCAPES];
    let edge_bytes = &mut edge_buffer[..(edges as usize).min(MOST_EDGES)];
    let escape_bytes = &mut escape_buffer[..(escapes as usize).min(MOST_ESCAPES)];
    say(rt, name);
    let given = call(w, &bytes[..n], edge_bytes, escape_bytes);
    say_done(rt, given.answer);
    say_buffer(rt, edge_bytes);
    say_buffer(rt, escape_bytes);
    given.window
}

fn grow(rt: &impl Print, w: Window) -> Window {
    let given = calls::grow(w);
    say(rt, b"grow ");
    say_done(rt, given.answer);
    given.window
}

fn merging(rt: &impl Print, w: Window, most: u32) -> Window {
    let mut window = w;
    for made in 0..most {
        let given = calls::merging(window);
        window = given.window;
        say(rt, b"merging ");
        say_merged(rt, given.answer);
        if !matches!(given.answer, Ok(Merged::Busy)) {
            return window;
        }
        if made + 1 < most {
            say_window(rt, &window);
        }
    }
    window
}

fn run(rt: &impl Print, w: Window, budget: u32) -> Window {
    let given = calls::run(w, budget);
    say(rt, b"run ");
    say_outcome(rt, given.answer);
    given.window
}

// THE EDITS

// A shape by the next numbers of a text.
fn shape_by(text: &[u8]) -> Shape {
    let (height, text) = number(text);
    let (distance, text) = number(text);
    let (model, _) = number(text);
    Shape {
        height: byte(height),
        distance: byte(distance),
        model: byte(model),
    }
}

fn stage_of(code: u32) -> Stage {
    match code {
        0 => Stage::Rest,
        1 => Stage::ToGrow,
        _ => Stage::Merging,
    }
}

fn mark_of(code: u32) -> Mark {
    match u16::try_from(code) {
        Ok(m) => Mark::Root(m),
        Err(_) => Mark::Reset,
    }
}

// A node by the next numbers of a text.
fn node_of(text: &[u8]) -> Node {
    let (active, text) = number(text);
    let (defect, text) = number(text);
    let (unrooted, text) = number(text);
    let (pointer, text) = number(text);
    let (mark, _) = number(text);
    Node {
        active: active == 1,
        defect: defect == 1,
        unrooted: unrooted == 1,
        pointer: byte(pointer),
        mark: mark_of(mark),
    }
}

// Stores a value at an index, unless the index is behind the end.
fn store<T: Copy>(items: &mut [T], i: usize, value: T) {
    if i < items.len() {
        items[i] = value;
    }
}

// An edit by its letter.
fn edit(rt: &impl Print, text: &[u8], letter: u8, w: Window) -> Window {
    let (first, rest) = number(text);
    let (second, _) = number(rest);
    let i = first as usize;
    say(rt, b"edit ");
    let mut v = w;
    match letter {
        b'd' => v.shape = shape_by(text),
        b's' => v.stage = stage_of(first),
        b'n' => v.next = first,
        b'e' => store(&mut v.nodes, i, node_of(rest)),
        b'h' => store(&mut v.growth, i, byte(second)),
        b'l' => store(&mut v.measured, i, second == 1),
        _ => store(&mut v.correction, i, second == 1),
    }
    v
}

// The command that a text begins with, and the window after it.
fn command(rt: &impl Print, text: &[u8], letter: u8, w: Window) -> Window {
    match letter {
        b'o' => open(rt, text),
        b'r' => match text.get(1) {
            Some(b'u') => run(rt, w, number(text).0),
            Some(b'a') => round(rt, b"raw ", calls::raw_round, text, w),
            _ => round(rt, b"round ", calls::round, text, w),
        },
        b'g' => grow(rt, w),
        b'm' => merging(rt, w, number(text).0),
        _ => edit(rt, text, letter, w),
    }
}

// Writes a line as it stands, a byte at a time: where one cannot be written, the next is tried all the same.
fn echo(rt: &impl Print, line: &[u8]) {
    for x in line {
        say(rt, &[*x]);
    }
}

// The line that a text begins with, no `#` line, and the window after it.
fn line(rt: &impl Print, text: &[u8], letter: u8, w: Window) -> Window {
    let window = command(rt, text, letter, w);
    say_window(rt, &window);
    window
}

// Reads until the buffer is full, the input ends or a read fails. A read may give fewer bytes than it has room for, and none at the end.
// stays: each turn goes on by as many bytes as were read
fn read_script(source: &mut impl io::Read, script: &mut [u8]) {
    let mut n = 0;
    while n < script.len() {
        let Ok(more) = source.read(&mut script[n..]) else {
            return;
        };
        if more == 0 {
            return;
        }
        n += more;
    }
}

fn main(rt: HostRuntime) {
    let mut script = [0u8; SCRIPT_BYTES];
    read_script(&mut rt.stdin(), &mut script);
    let mut window = fresh::fresh(1, 2, 0, 1, 2).window;
    let mut text: &[u8] = &script;
    while let Some(letter) = text.first() {
        if *letter == 0 {
            return;
        }
        let end = text
            .iter()
            .position(|x| *x == b'\n')
            .map_or(text.len(), |i| i + 1);
        if *letter == b'#' {
            echo(&rt, &text[..end]);
        } else {
            window = line(&rt, text, *letter, window);
        }
        text = &text[end..];
    }
}
