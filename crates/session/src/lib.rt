// Decoding an input stream into a result stream, on slices: round after round, and the whole stream. The machine's arrays are held here and lent.
#![tactic(auto)]

ghost use Rattle.std.specs.Prelude.{◌≡◌, true};
ghost use Rattle.shape.specs.Sizes.{IsShape};
ghost use Rattle.steps.specs.Models.{of_model};
ghost use Rattle.window.specs.Formed.{well_formed};
ghost use Rattle.window.specs.Fresh.{fresh_window};
ghost use Rattle.window.specs.Window.{is_rest};
ghost use Rattle.decoding.specs.Answers.{line_of, rounds_returned, rounds_leave, decode_returned, decode_leaves};
ghost use Rattle.session.specs.Ends.{Ends};

use decoding::{DecodeGiven, Ending, RoundsGiven};
use flat::{Arrays, LISTS, NO_EDGE, PLANE, PLANES, Work};
use refusal::Refusal;
use rounds_on::Rounds;
use shape::Shape;
use turn::Held;
use window::{Stage, Window};

// Decodes round after round of a shape's fresh window.
fn decode_fresh(shape: Shape, src: &[u8], at: usize, out: &mut [u8], to: usize) -> Rounds
    requires { IsShape shape }
    ensures { Ends (of_model shape.model) (fresh_window (of_model shape.model) shape) src.now at out.old to (line_of result.ending) result.at result.to out.new }
{
    // written out and made first: a call would copy each, and what is made later is cleared twice
    let mut first = Arrays {
        nodes: [0; PLANE],
        marks: [0; PLANE],
        edges: [NO_EDGE; PLANES],
    };
    let mut other = Arrays {
        nodes: [0; PLANE],
        marks: [0; PLANE],
        edges: [NO_EDGE; PLANES],
    };
    let mut work = Work {
        lists: [0; LISTS],
        queued: [false; PLANE],
        words: [0; PLANE],
    };
    let laid = plan::lay_out(shape);
    starting::own_marks(&mut first.marks, &laid.layout.table);
    let held = Held {
        next: extent::sheets(shape) as u32,
        rides: true,
        quiet: true,
    };
    rounds_on::rounds_on(
        &laid, held, src, at, out, to, &mut first, &mut other, &mut work,
    )
}

// Decodes round after round of a well-formed window at rest. Whether a merging step would change a node is not known, so the first turn takes all.
fn decode_resting(w: Window, src: &[u8], at: usize, out: &mut [u8], to: usize) -> RoundsGiven
    requires w_value { well_formed (of_model w.shape.model) w ≡ true }
    requires stage_value { is_rest w.stage ≡ true }
    ensures { rounds_returned (line_of result.ending) result.window result.at result.to out.new ≡ rounds_leave (of_model w.shape.model) src.now w at out.old to }
{
    let mut other = Arrays {
        nodes: [0; PLANE],
        marks: [0; PLANE],
        edges: [NO_EDGE; PLANES],
    };
    let mut work = Work {
        lists: [0; LISTS],
        queued: [false; PLANE],
        words: [0; PLANE],
    };
    let laid = plan::lay_out(w.shape);
    let mut first = unpack::unpack(&w, &laid);
    let rides = unpack::rides(&laid.layout, false, &first);
    let held = Held {
        next: w.next,
        rides,
        quiet: false,
    };
    let r = rounds_on::rounds_on(
        &laid, held, src, at, out, to, &mut first, &mut other, &mut work,
    );
    let arrays = if r.other { &other } else { &first };
    RoundsGiven {
        ending: r.ending,
        window: pack::pack(w.shape, Stage::Rest, r.next, w.measured, arrays),
        at: r.at,
        to: r.to,
    }
}

// Decodes round after round from an offset on, and writes their records from an offset on. The window is tested once.
pub fn decode_rounds(w: Window, src: &[u8], at: usize, out: &mut [u8], to: usize) -> RoundsGiven
    ensures { rounds_returned (line_of result.ending) result.window result.at result.to out.new ≡ rounds_leave (of_model w.shape.model) src.now w at out.old to }
{
    let refusal = if !formed::well_formed(w) {
        Refusal::NotWellFormed
    } else if w.stage != Stage::Rest {
        Refusal::WrongStage
    } else {
        return decode_resting(w, src, at, out, to);
    };
    RoundsGiven {
        ending: Ending::Refused(refusal),
        window: w,
        at,
        to,
    }
}

// Decodes a whole stream: the header and the rounds, written from the buffer's front on.
pub fn decode(src: &[u8], out: &mut [u8]) -> DecodeGiven
    ensures { decode_returned (line_of result.ending) result.count out.new ≡ decode_leaves src.now out.old }
{
    match record::read_header(src, 0) {
        Err(f) => DecodeGiven {
            ending: Ending::Refused(f),
            count: 0,
        },
        Ok((shape, next)) => match record::write_header(shape, out, 0) {
            Err(f) => DecodeGiven {
                ending: Ending::Refused(f),
                count: 0,
            },
            Ok(to) => {
                let r = decode_fresh(shape, src, next, out, to);
                DecodeGiven {
                    ending: r.ending,
                    count: r.to,
                }
            }
        },
    }
}
