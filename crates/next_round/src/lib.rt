// The round that a decoding receives next: the offsets in both slices, the end, the last round there can be, and then the round's bytes.
#![tactic(auto)]

ghost use Rattle.std.specs.Prelude.{◌≡◌, length, replicate};
ghost use Rattle.refusal.specs.Writing.{buffered};
ghost use Rattle.list.specs.Sheet.{read_into};
ghost use Rattle.record.specs.Calls.{round_answer};
ghost use Rattle.next_round.specs.Next.{next_round};

use refusal::Refusal;
use window::MAX_NEXT;

// Reads round `next` from an offset of the source on, where its record is to be written from an offset of a buffer of so many bytes on. The
// bytes are all 0 before; unless a round is read, they are free afterwards.
pub fn next_round(
    next: u32,
    src: &[u8],
    at: usize,
    size: usize,
    to: usize,
    bytes: &mut [u8],
) -> Result<Option<usize>, Refusal>
    requires { bytes.old ≡ replicate (length bytes.old) 0 }
    ensures { buffered (round_answer result) bytes.new ≡ read_into (next_round src.now (length bytes.old) next at size to) bytes.new }
{
    if src.len() < at || size < to {
        return Err(Refusal::Offset);
    }
    if src.len() == at {
        return Ok(None);
    }
    if next == MAX_NEXT {
        return Err(Refusal::LastRound);
    }
    let behind = list::take_list(src, at, bytes)?;
    Ok(Some(behind))
}
