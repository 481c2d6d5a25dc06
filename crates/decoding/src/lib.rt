// What a decoding answers. Its rule stands in specs/Decoding.antt, with the theorems on it beside.
#![tactic(auto)]

ghost use Rattle.std.specs.Prelude.{◌≡◌};
ghost use Rattle.decoding.specs.declared.Ending.TheVariants.{Refused};

use refusal::Refusal;
use window::Window;

// How a decoding ended: at the stream's end, with a round that is spent, or with a refusal. A record is written or ends the decoding:
// its answer is `Result<(usize, usize), Ending>`, with the offsets behind the round that was read and behind what was written.
#[derive(Clone, Copy)]
pub enum Ending {
    Finished,
    Spent,
    Refused(Refusal),
}

impl From<Refusal> for Ending {
    ghost from_gives = { λ f e. e ≡ Refused f };

    fn from(f: Refusal) -> Ending {
        Ending::Refused(f)
    }
}

// Round after round: how it ended, with which window, at which offset of the input, and the offset behind what was written.
#[derive(Clone, Copy)]
pub struct RoundsGiven {
    pub ending: Ending,
    pub window: Window,
    pub at: usize,
    pub to: usize,
}

// How a whole stream's decoding ended, and the bytes written.
#[derive(Clone, Copy)]
pub struct DecodeGiven {
    pub ending: Ending,
    pub count: usize,
}
