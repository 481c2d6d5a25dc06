// The writer of sheet lists, from a buffer of one byte an entry. A list is measured once and then written; one that is all 0 is told by the
// bits of all entries together, a pass that becomes vector code, and is looked at no further.
#![tactic(auto)]

ghost use Rattle.std.specs.Prelude.{◌≡◌, true, ◌+◌, ◌≤◌, ◌<◌, min, length, Some};
ghost use Rattle.refusal.specs.Writing.{front, put_to};
ghost use Rattle.number.specs.Number.{written_buffered};
ghost use Rattle.list.specs.Sheet.{ones as ones_of, listed as listed_of, are_bits, write_list};
ghost use Rattle.list_writer.specs.Gaps.{top as top_of, Gap, Next};

mod measured_list;

pub use measured_list::MeasuredList;
use number::{number_len, put_number};
use refusal::Refusal;

// The bits of all entries together: 0 where all are 0, at most 1 where each is 0 or 1.
fn union(entries: &[u8]) -> u8
    ensures { min result 2 ≡ min (top_of entries.now) 2 }
{
    entries.iter().fold(0, |seen, entry| seen | *entry)
}

// Here begins a block of 16 entries, counted from the end, that are all 0.
fn blank(entries: &[u8], from: usize) -> bool
    requires { from < length entries.now }
    ensures { result ≡ true → Gap entries.now from (from + 16) }
{
    let left = entries.len() - from;
    if left % 16 != 0 {
        return false;
    }
    let end = from + 16;
    union(&entries[from..end]) == 0
}

// The place of the next set entry.
fn next_set(entries: &[u8], from: usize) -> Option<usize>
    requires { from ≤ length entries.now }
    ensures { Next entries.now from result }
{
    let mut j = from;
    // stays: steps by 16 or by 1, which no range does
    while j < entries.len() {
        if entries[j] == 1 {
            return Some(j);
        }
        if blank(entries, j) {
            j += 16;
        } else {
            j += 1;
        }
    }
    None
}

// Measures a list.
pub fn measured(entries: &[u8]) -> MeasuredList<'_>
    ensures { result.entries.now ≡ entries.now }
{
    let bits = union(entries);
    if bits == 0 {
        return MeasuredList {
            entries,
            bits,
            ones: 0,
            len: 1,
        };
    }
    let mut ones: u64 = 0;
    let mut len: usize = 0;
    let mut from: usize = 0;
    while let Some(place) = next_set(entries, from) {
        ones += 1;
        len += number_len((place - from) as u64);
        from = place + 1;
    }
    len += number_len(ones);
    MeasuredList {
        entries,
        bits,
        ones,
        len,
    }
}

// Writes a list, of which so many entries are set, at the front of a buffer that has room, and answers its bytes. It looks for one set entry
// after another, and at none behind the last.
pub fn put_measured(entries: &[u8], ones: u64, out: &mut [u8]) -> usize
    requires ones_value { ones ≡ ones_of entries.now }
    requires entries_in_bounds { length (listed_of entries.now) ≤ length out.old }
    ensures { put_to (Some result) out.new ≡ front out.old (listed_of entries.now) }
{
    let mut i = put_number(ones, out).unwrap();
    let mut from: usize = 0;
    for _ in 0..ones {
        let place = next_set(entries, from).unwrap();
        let skipped = (place - from) as u64;
        i += put_number(skipped, &mut out[i..]).unwrap();
        from = place + 1;
    }
    i
}

// Writes a list at the front of a buffer and answers its bytes; None, and nothing written, where it has no room.
pub fn put_list(entries: &[u8], out: &mut [u8]) -> Option<usize>
    ensures { put_to result out.new ≡ front out.old (listed_of entries.now) }
{
    let m = measured(entries);
    if out.len() < m.len {
        return None;
    }
    Some(put_measured(m.entries, m.ones, out))
}

// Each byte is 0 or 1.
pub fn are_bits(entries: &[u8]) -> bool
    ensures { result ≡ are_bits entries.now }
{
    union(entries) <= 1
}

// Writes a list from an offset on.
pub fn write_list(entries: &[u8], out: &mut [u8], at: usize) -> Result<usize, Refusal>
    ensures { written_buffered result out.new ≡ write_list entries.now out.old at }
{
    if out.len() < at {
        return Err(Refusal::Offset);
    }
    if !are_bits(entries) {
        return Err(Refusal::Byte);
    }
    let count = put_list(entries, &mut out[at..]).ok_or(Refusal::Room)?;
    Ok(at + count)
}
