// Sheet lists: one byte an entry, 0 or 1, in a buffer; in a stream the count of set entries and the entries skipped before each.
// Here is their reader.
#![tactic(auto)]

ghost use Rattle.std.specs.Prelude.{◌≡◌, ◌≤◌, length, replicate};
ghost use Rattle.refusal.specs.Answer.{reading, without_value};
ghost use Rattle.list.specs.Sheet.{list_answer, list_buffered, list_at, count_at, place_at, read_into, read_list};

use number::read_number;
use refusal::Refusal;

// How many entries the list of size entries at an offset sets, and the offset behind their count.
#[inline]
fn read_count(src: &[u8], at: usize, size: usize) -> Result<(usize, usize), Refusal>
    ensures { reading result ≡ count_at src.now size at }
{
    let (count, next) = read_number(src, at)?;
    if size < count as usize {
        return Err(Refusal::Entry(at));
    }
    Ok((count as usize, next))
}

// The next entry that is set, at entry from or later, and the offset behind its skip, which is at an offset.
#[inline]
fn next_place(src: &[u8], at: usize, from: usize, size: usize) -> Result<(usize, usize), Refusal>
    requires { from ≤ size }
    ensures { reading result ≡ place_at src.now size from at }
{
    let (skip, next) = read_number(src, at)?;
    let skipped = skip as usize;
    if size - from <= skipped {
        return Err(Refusal::Entry(at));
    }
    Ok((from + skipped, next))
}

// Reads the list of size entries at an offset, and stores nothing.
pub fn scan_list(src: &[u8], at: usize, size: usize) -> Result<usize, Refusal>
    ensures { list_answer result ≡ without_value (list_at src.now size at) }
{
    let (count, mut next) = read_count(src, at, size)?;
    let mut from = 0;
    for _ in 0..count {
        let (place, behind) = next_place(src, next, from, size)?;
        from = place + 1;
        next = behind;
    }
    Ok(next)
}

// Reads a list of as many entries as the buffer has bytes into a buffer that is all 0, in one pass. Where it is refused, the buffer's entries
// are free: those before the refusal are set.
pub fn take_list(src: &[u8], at: usize, out: &mut [u8]) -> Result<usize, Refusal>
    requires { out.old ≡ replicate (length out.old) 0 }
    ensures { list_buffered result out.new ≡ read_into (list_at src.now (length out.old) at) out.new }
{
    let (ones, mut next) = read_count(src, at, out.len())?;
    let mut from = 0;
    for _ in 0..ones {
        let (entry, behind) = next_place(src, next, from, out.len())?;
        out[entry] = 1;
        from = entry + 1;
        next = behind;
    }
    Ok(next)
}

// The same into any buffer, which is cleared first.
pub fn store_list(src: &[u8], at: usize, out: &mut [u8]) -> Result<usize, Refusal>
    ensures { list_buffered result out.new ≡ read_into (list_at src.now (length out.old) at) out.new }
{
    out.fill(0);
    take_list(src, at, out)
}

// Reads a list of as many entries as the buffer has bytes. Nothing is stored before all of it has been read, so the stream's numbers are
// passed over twice: a buffer must stay as it was where the list is refused.
pub fn read_list(src: &[u8], at: usize, out: &mut [u8]) -> Result<usize, Refusal>
    ensures { list_buffered result out.new ≡ read_list src.now at out.old }
{
    scan_list(src, at, out.len())?;
    store_list(src, at, out)
}
