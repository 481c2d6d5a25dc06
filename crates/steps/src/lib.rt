// The tables of steps between nodes, by the noise model: for each pointer where it leads, the pointer back, and the edge that it goes along.
#![tactic(auto)]

ghost use Rattle.std.specs.Prelude.{◌≡◌, length};
ghost use Rattle.steps.specs.Steps.{step as step_in, falls as falls_in, namer as namer_in};
ghost use Rattle.steps.specs.Models.{circuit, of_model};

// A coordinate's part of a step: a goes to a + more - less.
#[derive(Clone, Copy, PartialEq, Eq)]
pub struct Shift {
    pub less: u8,
    pub more: u8,
}

// A step of the scan order: its shifts, the pointer of the step back, the kind of its edge, and whether the node that it leaves names the edge.
// stays: pointers and kinds are numbers, since places in a table and slots count by them (`step`, `slot_in` in specs/Steps.antt).
#[derive(Clone, Copy, PartialEq, Eq)]
pub struct Step {
    pub row: Shift,
    pub column: Shift,
    pub sheet: Shift,
    pub back: u8,
    pub kind: u8,
    pub own: bool,
}

const STAY: Shift = Shift { less: 0, more: 0 };

const MINUS: Shift = Shift { less: 1, more: 0 };

const PLUS: Shift = Shift { less: 0, more: 1 };

impl Step {
    fn new(row: Shift, column: Shift, sheet: Shift, back: u8, kind: u8, own: bool) -> Step
        ensures { result ≡ record { row = row; column = column; sheet = sheet; back = back; kind = kind; own = own } }
    {
        Step {
            row,
            column,
            sheet,
            back,
            kind,
            own,
        }
    }
}

// The step of a pointer, 1 to 12: N, W, E, S, D, U, and the diagonals NU, WD, EU, SD, NWD, SEU; what is none of them stays.
#[tactic(auto, unfolding(crate::specs::Models::circuit))]
fn any_step(pointer: u8) -> Step
    ensures { result ≡ step_in circuit pointer }
{
    match pointer {
        1 => Step::new(MINUS, STAY, STAY, 4, 1, false),
        2 => Step::new(STAY, MINUS, STAY, 3, 0, false),
        3 => Step::new(STAY, PLUS, STAY, 2, 0, true),
        4 => Step::new(PLUS, STAY, STAY, 1, 1, true),
        5 => Step::new(STAY, STAY, PLUS, 6, 2, false),
        6 => Step::new(STAY, STAY, MINUS, 5, 2, true),
        7 => Step::new(MINUS, STAY, MINUS, 10, 3, true),
        8 => Step::new(STAY, MINUS, PLUS, 9, 4, false),
        9 => Step::new(STAY, PLUS, MINUS, 8, 4, true),
        10 => Step::new(PLUS, STAY, PLUS, 7, 3, false),
        11 => Step::new(MINUS, MINUS, PLUS, 12, 5, false),
        12 => Step::new(PLUS, PLUS, MINUS, 11, 5, true),
        _ => Step::new(STAY, STAY, STAY, 0, 0, true),
    }
}

// The directions of a model, and its kinds of edges.
#[tactic(auto, unfolding(crate::specs::Models::of_model, crate::specs::Models::circuit, crate::specs::Steps::base))]
pub fn dirs(model: u8) -> u8
    ensures { result ≡ length (of_model model).steps }
{
    if model == 1 { 12 } else { 6 }
}

#[tactic(auto, unfolding(crate::specs::Models::of_model, crate::specs::Models::circuit, crate::specs::Steps::base))]
pub fn kinds(model: u8) -> u8
    ensures { result ≡ (of_model model).kinds }
{
    if model == 1 { 6 } else { 3 }
}

// The step of a model's pointer.
pub fn step_of(model: u8, pointer: u8) -> Step
    ensures { result ≡ step_in (of_model model) pointer }
{
    if pointer <= dirs(model) {
        any_step(pointer)
    } else {
        any_step(0)
    }
}

// The direction in which a node names its edge of a kind: E, S, U, NU, EU, SEU.
#[tactic(auto, unfolding(crate::specs::Models::circuit, crate::specs::Steps::naming))]
fn any_namer(kind: u8) -> u8
    ensures { result ≡ namer_in circuit kind }
{
    match kind {
        0 => 3,
        1 => 4,
        2 => 6,
        3 => 7,
        4 => 9,
        5 => 12,
        _ => 0,
    }
}

pub fn namer(model: u8, kind: u8) -> u8
    ensures { result ≡ namer_in (of_model model) kind }
{
    if kind < kinds(model) {
        any_namer(kind)
    } else {
        0
    }
}

// Whether the pointer has a D.
pub fn falls(model: u8, pointer: u8) -> bool
    ensures { result ≡ falls_in (of_model model) pointer }
{
    let sheet = step_of(model, pointer).sheet;
    sheet.less < sheet.more
}
