// Decodes one input stream of at most 65,536 bytes from standard input, and writes the result stream to standard output. The result is
// whole if the program ends with status 0 and says nothing on standard error. What stopped it is said there by one line, behind all that
// is written of the result:
//   refused N  by the documents' number; the header, if it was read, and the finished rounds are written
//   spent      in the next round; the header and the finished rounds are written. No round ends spent (crates/rests): it does not appear
//   long       more than 65,536 bytes can be read; nothing is written
//   unread     a read failed; nothing is written
//   unwritten  a write failed, or the file that took the result cannot keep it; what is written may be cut at any byte
// Its status is 0 also then. A signal that ends it, as by default where a limit on a file's size leaves no room for its next byte, leaves no
// line and another status. Where standard error cannot be written, nothing can be told.
#![tactic(auto)]

use decoding::Ending;
use refusal::Refusal;
use shape::{MAX_DISTANCE, MAX_HEIGHT, Shape};
use std::fs::{OpenFile, OpenOptions};
use std::io::{ErrorKind, Read};
use std::rt::Files;
use std::{fs, io};
use window::Window;

// Standard output, by its name.
const RESULT: &str = "/dev/stdout";

// The most bytes of the input.
const MOST: usize = 65536;

// Says a line on standard error. If that fails, nothing can be told.
fn say_line(rt: &impl Eprint, line: &str) {
    let _ = rt.eprintln(line);
}

fn say_refused(rt: &impl Eprint, f: Refusal) {
    let number = u8::from(f);
    let _ = eprintln!(rt; "refused {number}");
}

fn say(rt: &impl Eprint, ending: Ending) {
    match ending {
        Ending::Finished => {}
        Ending::Spent => say_line(rt, "spent"),
        Ending::Refused(f) => say_refused(rt, f),
    }
}

// Whether the result goes to a file. A pipe, a terminal or a socket is none.
fn is_file(rt: &impl Files) -> bool {
    fs::metadata(rt, RESULT).is_ok_and(|about| about.is_file())
}

// Whether a file that took the result cannot keep it: a file system, as one over the network, may tell only now that bytes are lost. A file
// that has no such call answers so, and one that cannot be opened once more is not asked.
fn is_lost(rt: &impl Files) -> bool {
    if !is_file(rt) {
        return false;
    }
    let Ok(file) = OpenOptions::new().write(true).open(rt, RESULT) else {
        return false;
    };
    file.sync_all()
        .is_err_and(|e| e.kind() != ErrorKind::InvalidInput)
}

// Asks a file to keep the result, since std has no close that answers, and says what stopped the decoding.
fn conclude(rt: &(impl Eprint + Files), ending: Ending) {
    if is_lost(rt) {
        say_line(rt, "unwritten");
        return;
    }
    say(rt, ending);
}

// Whether the next record has no room behind the others; an empty buffer has room for any (decoding/proofs/Lengths.antt).
fn is_full(ending: Ending) -> bool {
    matches!(ending, Ending::Refused(Refusal::Room))
}

// Whether all the bytes are written. A file that takes only a part is full or limited, and at a limit the next write would end the program
// before its line; a pipe or a terminal may take the rest.
fn write_out(rt: &(impl Print + Files), bytes: &[u8]) -> bool {
    if bytes.is_empty() {
        return true;
    }
    let Ok(put) = rt.write_some(bytes) else {
        return false;
    };
    if put == bytes.len() {
        return true;
    }
    if put == 0 || is_file(rt) {
        return false;
    }
    rt.write_all(&bytes[put..]).is_ok()
}

// Writes out the buffer's front; whether all of it is written.
fn write_front(rt: &(impl Print + Files), out: &[u8], end: usize) -> bool {
    match out.get(..end) {
        Some(front) => write_out(rt, front),
        None => false,
    }
}

// The rounds from an offset on, behind what stands in the buffer: it is written out whenever it is full.
fn decode_rounds(
    rt: &(impl Print + Eprint + Files),
    start: Window,
    src: &[u8],
    from: usize,
    out: &mut [u8],
    behind: usize,
) {
    let mut window = start;
    let mut at = from;
    let mut to = behind;
    loop {
        let r = session::decode_rounds(window, src, at, out, to);
        if !write_front(rt, out, r.to) {
            say_line(rt, "unwritten");
            return;
        }
        if !is_full(r.ending) || r.to == 0 {
            conclude(rt, r.ending);
            return;
        }
        window = r.window;
        at = r.at;
        to = 0;
    }
}

// The header's shape, which is read and written, and the offsets behind both.
fn pass_header(src: &[u8], out: &mut [u8]) -> Result<(Shape, usize, usize), Refusal> {
    let (shape, next) = record::read_header(src, 0)?;
    let to = record::write_header(shape, out, 0)?;
    Ok((shape, next, to))
}

fn decode(rt: &(impl Print + Eprint + Files), src: &[u8], out: &mut [u8]) {
    match pass_header(src, out) {
        Err(f) => say_refused(rt, f),
        Ok((shape, next, to)) => {
            let fresh = fresh::fresh(
                u32::from(shape.height),
                u32::from(shape.distance),
                u32::from(shape.model),
                MAX_HEIGHT as u32,
                MAX_DISTANCE as u32,
            );
            decode_rounds(rt, fresh.window, src, next, out, to);
        }
    }
}

// Reads until the buffer is full or the input ends. A read may give fewer bytes than it has room for, and none at the end.
// stays: each turn goes on by as many bytes as were read
fn read_input(source: &mut impl Read, input: &mut [u8]) -> io::Result<usize> {
    let mut n = 0;
    while n < input.len() {
        let more = source.read(&mut input[n..])?;
        if more == 0 {
            return Ok(n);
        }
        n += more;
    }
    Ok(n)
}

// The buffer has room for one byte more than is decoded, which tells that the input is long.
fn main(rt: HostRuntime) {
    let mut input = [0u8; MOST + 1];
    let mut out = [0u8; 65536];
    match read_input(&mut rt.stdin(), &mut input) {
        Err(_) => say_line(&rt, "unread"),
        Ok(n) => {
            if n > MOST {
                say_line(&rt, "long");
                return;
            }
            decode(&rt, &input[..n], &mut out);
        }
    }
}
