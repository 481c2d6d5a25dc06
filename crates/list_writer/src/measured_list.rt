// A list with what it comes to.

ghost use Rattle.list_writer.specs.Gaps.{Measured};

// A list, and what it comes to: the bits of all entries together, how many are set, and how many bytes it has in a stream.
#[derive(Clone, Copy)]
pub struct MeasuredList<'a> {
    pub entries: &'a [u8],
    pub bits: u8,
    pub ones: u64,
    pub len: usize,
    ghost measured: { Measured entries.now bits ones len },
}
