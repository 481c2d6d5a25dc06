// One record of the decoding, on the machine's arrays: the round that is received next, run, and its record written.
#![tactic(auto)]

ghost use Rattle.std.specs.Prelude.{◌≡◌, ◌≤◌, length};
ghost use Rattle.std.specs.Result.{OnErr};
ghost use Rattle.shape.specs.Sizes.{IsShape};
ghost use Rattle.decoding.specs.Answers.{record_answer};
ghost use Rattle.flat.specs.Structs.{plan_in, state_in};
ghost use Rattle.turn.specs.Ready.{Ready};
ghost use Rattle.one_record.specs.RecordOf.{RecordOf};
ghost use Rattle.one_record.specs.RecordOn.{RecordOn};

use decoding::Ending;
use flat::{Arrays, Work};
use plan::ShapeLayout;
use run_steps::Reached;
use shape::MAX_DETECTORS;
use turn::Held;

// The record of a round that was read up to an offset, received and run: spent, refused for want of room, or written from an offset on. What leaves
// is read from the set from before the round.
fn record_of(
    laid: &ShapeLayout,
    ended: Reached,
    behind: usize,
    old: &Arrays,
    out: &mut [u8],
    to: usize,
) -> Result<(usize, usize), Ending>
    requires shape { IsShape laid.now.shape }
    requires to_in_bounds { to ≤ length out.old }
    ensures { RecordOf laid.now.shape old.now.nodes old.now.edges ended.rest ended.count behind out.old to (record_answer result) out.new }
{
    if !ended.rest {
        return Err(Ending::Spent);
    }
    let end = write_round::write(laid, ended.count, old, out, to)?;
    Ok((behind, end))
}

// One record of a window that is held: the next round is read, and if there is one, received, run and written. What is held afterwards is the window
// in the other set if its record was written, and else as it was.
pub fn record_on(
    laid: &ShapeLayout,
    held: &mut Held,
    src: &[u8],
    at: usize,
    out: &mut [u8],
    to: usize,
    old: &Arrays,
    new: &mut Arrays,
    work: &mut Work,
) -> Result<(usize, usize), Ending>
    requires { Ready laid.now.shape laid.now.layout held.old.next held.old.rides held.old.quiet old.now new.old work.old }
    ensures recorded { RecordOn (plan_in laid.now.layout) laid.now.shape held.old.next (state_in old.now) held.old.rides held.old.quiet src.now at out.old to (record_answer result) out.new held.new.next held.new.rides held.new.quiet new.new work.new }
    ensures kept { OnErr result (held.new ≡ held.old) }
{
    let n = extent::detectors(laid.shape);
    let mut bytes = [0; MAX_DETECTORS];
    let round = next_round::next_round(held.next, src, at, out.len(), to, &mut bytes[..n])?;
    let behind = round.ok_or(Ending::Finished)?;
    let ended = turn::turn(laid, *held, &bytes[..n], old, new, work);
    let offsets = record_of(laid, ended, behind, old, out, to)?;
    held.next += 1;
    held.quiet = true;
    Ok(offsets)
}
