// Round after round on the machine's arrays: each record is made from one set into the other.
#![tactic(auto)]

ghost use Rattle.shape.specs.Choice.{if};
ghost use Rattle.decoding.specs.Answers.{line_of};
ghost use Rattle.flat.specs.Structs.{plan_in, state_in};
ghost use Rattle.turn.specs.Ready.{Ready};
ghost use Rattle.rounds_on.specs.Rounds.{RoundsOn};

use decoding::Ending;
use flat::{Arrays, Work};
use plan::ShapeLayout;
use turn::Held;

// How the rounds ended, the window's next round, the offsets reached, and whether the window stands in the other set.
#[derive(Clone, Copy)]
pub struct Rounds {
    pub ending: Ending,
    pub next: u32,
    pub at: usize,
    pub to: usize,
    pub other: bool,
}

// Makes records from an offset on, and writes them from an offset on: one from the first set into the other, and one back.
pub fn rounds_on(
    laid: &ShapeLayout,
    held: Held,
    src: &[u8],
    at: usize,
    out: &mut [u8],
    to: usize,
    first: &mut Arrays,
    other: &mut Arrays,
    work: &mut Work,
) -> Rounds
    requires { Ready laid.now.shape laid.now.layout held.next held.rides held.quiet first.old other.old work.old }
    ensures { RoundsOn (plan_in laid.now.layout) laid.now.shape held.next (state_in first.old) held.rides held.quiet src.now at out.old to (line_of result.ending) result.at result.to out.new result.next (if result.other (state_in other.new) (state_in first.new)) }
{
    let mut here = held;
    let mut i = at;
    let mut j = to;
    'records: loop {
        let mut there = here;
        let forth = one_record::record_on(laid, &mut there, src, i, out, j, first, other, work);
        let (next, behind) = match forth {
            Ok(offsets) => offsets,
            Err(ending) => {
                return Rounds {
                    ending,
                    next: here.next,
                    at: i,
                    to: j,
                    other: false,
                };
            }
        };
        here = there;
        let back = one_record::record_on(
            laid, &mut here, src, next, out, behind, other, first, work,
        );
        (i, j) = match back {
            Ok(offsets) => offsets,
            Err(ending) => {
                return Rounds {
                    ending,
                    next: there.next,
                    at: next,
                    to: behind,
                    other: true,
                };
            }
        };
    }
}
