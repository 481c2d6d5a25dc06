// A reader that carries its stream: the lent bytes and the offset of the next record. Each reading is the one on a slice and an offset, and
// moves the reader behind what was read, or leaves it as it was. What carries a reader and has plain parameters stands in crate stream.
#![tactic(auto)]

ghost use Rattle.std.specs.Prelude.{◌≡◌, ◌-◌, length};
ghost use Rattle.refusal.specs.Writing.{buffered};
ghost use Rattle.record.specs.Records.{header_at};
ghost use Rattle.record.specs.Calls.{header_answer, round_answer, result_answer, read_round, result_buffered, read_result};
ghost use Rattle.reader.specs.Reader.{moved};

use refusal::Refusal;
use shape::Shape;

#[derive(Clone, Copy)]
pub struct Reader<'a> {
    pub src: &'a [u8],
    pub at: usize,
}

impl<'a> Reader<'a> {
    // At the front of a stream.
    pub fn new(src: &'a [u8]) -> Reader<'a>
        ensures { (result.src ≡ src.entry) × (result.at ≡ 0) }
    {
        Reader { src, at: 0 }
    }

    // The offset of the next record.
    pub fn at(&self) -> usize
        ensures { result ≡ self.now.at }
    {
        self.at
    }

    // How many bytes are left.
    pub fn left(&self) -> usize
        ensures { result ≡ length self.now.src.now - self.now.at }
    {
        self.src.len().saturating_sub(self.at)
    }

    // Reads the header.
    pub fn header(&mut self) -> Result<(Shape, usize), Refusal>
        ensures { (header_answer result ≡ header_at self.old.src.now self.old.at) × (self.new ≡ moved self.old (header_answer result)) }
    {
        let read = record::read_header(self.src, self.at)?;
        self.at = read.1;
        Ok(read)
    }

    // Reads the next round of the input.
    pub fn round(&mut self, shape: Shape, defects: &mut [u8]) -> Result<Option<usize>, Refusal>
        ensures { (buffered (round_answer result) defects.new ≡ read_round shape self.old.src.now self.old.at defects.old) × (self.new ≡ moved self.old (round_answer result)) }
    {
        let read = input::read_round(shape, self.src, self.at, defects)?;
        if let Some(next) = read {
            self.at = next;
        }
        Ok(read)
    }

    // Reads the next round of the result.
    pub fn result(
        &mut self,
        shape: Shape,
        edges: &mut [u8],
        escapes: &mut [u8],
    ) -> Result<Option<(u32, usize)>, Refusal>
        ensures { (result_buffered (result_answer result) edges.new escapes.new ≡ read_result shape self.old.src.now self.old.at edges.old escapes.old) × (self.new ≡ moved self.old (result_answer result)) }
    {
        let read = result::read_result(shape, self.src, self.at, edges, escapes)?;
        if let Some((_, next)) = read {
            self.at = next;
        }
        Ok(read)
    }
}
