// Numbers in groups of seven bits: a reader on a slice and an offset, and a writer into a lent buffer from an offset.
#![tactic(auto)]

ghost use Rattle.std.specs.Prelude.{◌≡◌, ◌≤◌, ◌<◌, length};
ghost use Rattle.refusal.specs.Writing.{front, put_to};
ghost use Rattle.number.specs.Number.{number_answer, written_buffered, number_at, last_group, written as written_of, write_number};

use refusal::Refusal;

// The number whose last group is x, after groups that come to sum; first is where the number begins.
fn last_group(
    first: usize,
    weight: u64,
    sum: u64,
    x: u64,
    next: usize,
) -> Result<(u32, usize), Refusal>
    requires { (weight ≤ 268435456) × (sum < weight) × (x < 128) }
    ensures { number_answer result ≡ last_group first weight sum x next }
{
    let value = sum + weight * x;
    if (1 < weight) & (x == 0) {
        return Err(Refusal::Form(first));
    }
    if value > u32::MAX as u64 {
        return Err(Refusal::Form(first));
    }
    Ok((value as u32, next))
}

// The number at an offset, group by group.
fn read_groups(src: &[u8], at: usize) -> Result<(u32, usize), Refusal>
    ensures { number_answer result ≡ number_at src.now at }
{
    if src.len() < at {
        return Err(Refusal::Offset);
    }
    let mut weight: u64 = 1;
    let mut sum: u64 = 0;
    for k in 0..5 {
        let i = at + k;
        if src.len() <= i {
            return Err(Refusal::Cut(at));
        }
        let x = src[i] as u64;
        if x < 128 {
            return last_group(at, weight, sum, x, i + 1);
        }
        sum += weight * (x - 128);
        weight *= 128;
    }
    Err(Refusal::Form(at))
}

// The number at an offset. One group alone, as almost every skip is, is told by its byte.
pub fn read_number(src: &[u8], at: usize) -> Result<(u32, usize), Refusal>
    ensures { number_answer result ≡ number_at src.now at }
{
    if at < src.len() {
        let only = src[at];
        if only < 128 {
            return Ok((only as u32, at + 1));
        }
    }
    read_groups(src, at)
}

// How many groups a number has.
pub fn number_len(n: u64) -> usize
    ensures { result ≡ length (written_of n) }
{
    let mut rest = n;
    let mut count: usize = 1;
    while 128 <= rest {
        rest /= 128;
        count += 1;
    }
    count
}

// Writes a number at the front of a buffer and answers its bytes; None, and nothing written, where it has no room.
pub fn put_number(n: u64, out: &mut [u8]) -> Option<usize>
    ensures { put_to result out.new ≡ front out.old (written_of n) }
{
    let count = number_len(n);
    if out.len() < count {
        return None;
    }
    let last = count - 1;
    let mut rest = n;
    for i in 0..last {
        out[i] = (rest % 128 + 128) as u8;
        rest /= 128;
    }
    out[last] = rest as u8;
    Some(count)
}

// Writes a number from an offset on.
pub fn write_number(n: u32, out: &mut [u8], at: usize) -> Result<usize, Refusal>
    ensures { written_buffered result out.new ≡ write_number n out.old at }
{
    if out.len() < at {
        return Err(Refusal::Offset);
    }
    let count = put_number(n as u64, &mut out[at..]).ok_or(Refusal::Room)?;
    Ok(at + count)
}
