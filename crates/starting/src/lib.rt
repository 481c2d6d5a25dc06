// The machine's arrays before the first round: a fresh window's marks.
#![tactic(auto)]

ghost use Rattle.std.specs.Prelude.{◌≡◌, get_or};
ghost use Rattle.flat.specs.Stored.{stored};

use flat::{PLANE, TABLE};

// Each node's mark is its own number.
pub fn own_marks(marks: &mut [u16; PLANE], table: &[u16; TABLE])
    ensures { marks.new ≡ stored 0 (λ i. get_or table.now i 0) 4608 marks.old }
{
    marks.copy_from_slice(&table[..PLANE]);
}
