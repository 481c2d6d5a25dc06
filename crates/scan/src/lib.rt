// Reading a whole stream: the header, then round after round to the end. Nothing of a round is kept.
#![tactic(auto)]

ghost use Rattle.std.specs.Prelude.{◌≡◌, ◌≤◌, length};
ghost use Rattle.shape.specs.Sizes.{IsShape};
ghost use Rattle.record.specs.Calls.{round_answer};
ghost use Rattle.reader.specs.Reader.{moved};
ghost use Rattle.scan.specs.Scanned.{Round, InputRound, ResultRound, passed_by, stream_answer, scanned_by};

use reader::Reader;
use refusal::Refusal;
use shape::{MAX_DETECTORS, MAX_LAYER_EDGES, Shape};

// A kind of round, by the reading that passes one.
pub trait Kind {
    ghost kind: { Round };

    // Passes the next round: the offset behind it, or None where no bytes are left.
    fn pass(reader: &mut Reader, shape: Shape) -> Result<Option<usize>, Refusal>
        requires shape { IsShape shape }
        requires at_in_bounds { reader.old.at ≤ length reader.old.src.now }
        ensures { (round_answer result ≡ passed_by kind reader.old.src.now shape reader.old.at) × (reader.new ≡ moved reader.old (round_answer result)) };
}

// The rounds of an input stream.
#[derive(Clone, Copy)]
pub struct InputRounds;

impl Kind for InputRounds {
    ghost kind = { InputRound };

    fn pass(reader: &mut Reader, shape: Shape) -> Result<Option<usize>, Refusal> {
        let mut defects = [0u8; MAX_DETECTORS];
        reader.round(shape, &mut defects[..extent::detectors(shape)])
    }
}

// The rounds of a result stream.
#[derive(Clone, Copy)]
pub struct ResultRounds;

impl Kind for ResultRounds {
    ghost kind = { ResultRound };

    #[tactic(auto, using(crate::proofs::Refused::refusing))]
    fn pass(reader: &mut Reader, shape: Shape) -> Result<Option<usize>, Refusal> {
        let mut edges = [0u8; MAX_LAYER_EDGES];
        let mut escapes = [0u8; MAX_DETECTORS];
        let layer = &mut edges[..extent::layer_edges(shape)];
        let sheet = &mut escapes[..extent::detectors(shape)];
        let read = reader.result(shape, layer, sheet)?;
        Ok(read.map(|(_, next)| next))
    }
}

// Reads a whole stream of a kind of round: its shape and how many rounds it has.
pub fn scan<K: Kind>(src: &[u8]) -> Result<(Shape, usize), Refusal>
    ensures { stream_answer result (length src.now) ≡ scanned_by K.kind src.now }
{
    let mut reader = Reader::new(src);
    let (shape, _) = reader.header()?;
    let mut rounds = 0;
    while 0 < reader.left() {
        K::pass(&mut reader, shape)?;
        rounds += 1;
    }
    Ok((shape, rounds))
}
