// Why a call is turned back: the numbered refusals of documents 01 and 02, by name.
#![tactic(auto)]

ghost use Rattle.std.specs.Prelude.{◌≡◌, ℕ, unwrap_or};
ghost use Rattle.refusal.specs.Answer.{status, place_or, turned};

#[derive(Clone, Copy, PartialEq, Eq)]
pub enum Refusal {
    // The height is not 1 to 15.
    Height,
    // The distance is not 2 to 15.
    Distance,
    // A round's slice has another length than the sheet has detectors.
    Detectors,
    // A byte is neither 0 nor 1.
    Byte,
    // The edge buffer has another length than a layer has edges.
    Edges,
    // The escape buffer has another length than the sheet has detectors.
    Escapes,
    // The stream ends inside a number or list. This and the next two hold the offset of the number's first byte.
    Cut(usize),
    // A number is not in its shortest form, or too large.
    Form(usize),
    // A count or skip passes the list's last entry.
    Entry(usize),
    // The offset is past the slice.
    Offset,
    // The record is longer than the rest of the buffer.
    Room,
    // The window is not well-formed.
    NotWellFormed,
    // The window is in another stage.
    WrongStage,
    // The next round's number is the last that 32 bits can hold.
    LastRound,
    // The noise model is not 0 or 1.
    Model,
    // A limit of the caller's is above 15, or the shape is over a limit.
    Limit,
}

impl From<Refusal> for u8 {
    // The documents' number of a refusal.
    ghost from_gives = { λ f n. n ≡ status (turned {A = Unit {0}} f) };

    fn from(f: Refusal) -> u8 {
        match f {
            Refusal::Height => 1,
            Refusal::Distance => 2,
            Refusal::Detectors => 3,
            Refusal::Byte => 4,
            Refusal::Edges => 5,
            Refusal::Escapes => 6,
            Refusal::Cut(_) => 7,
            Refusal::Form(_) => 8,
            Refusal::Entry(_) => 9,
            Refusal::Offset => 10,
            Refusal::Room => 11,
            Refusal::NotWellFormed => 21,
            Refusal::WrongStage => 22,
            Refusal::LastRound => 23,
            Refusal::Model => 31,
            Refusal::Limit => 32,
        }
    }
}

impl Refusal {
    // The offset that a refusal carries.
    pub fn place(self) -> Option<usize>
        ensures { (other : ℕ) → unwrap_or result other ≡ place_or (turned {A = Unit {0}} self) other }
    {
        match self {
            Refusal::Cut(at) | Refusal::Form(at) | Refusal::Entry(at) => Some(at),
            _ => None,
        }
    }
}
