// Whether the entries behind a window's own are unused.
#![tactic(auto)]

ghost use Rattle.std.specs.Prelude.{◌≡◌, Bool, not, drop};
ghost use Rattle.window.specs.Lists.{all};
ghost use Rattle.window.specs.Formed.{unused_node, is_empty};

use window::Node;

// An entry of one of a window's arrays: an unused one is zero.
pub trait Entry: Copy {
    ghost is_unused: { Self → Bool };

    fn is_unused(self) -> bool
        ensures { result ≡ is_unused self };
}

impl Entry for Node {
    ghost is_unused = { unused_node };

    fn is_unused(self) -> bool {
        fits::is_fresh(0, self)
    }
}

impl Entry for u8 {
    ghost is_unused = { is_empty };

    fn is_unused(self) -> bool {
        self == 0
    }
}

impl Entry for bool {
    ghost is_unused = { not };

    fn is_unused(self) -> bool {
        !self
    }
}

// The entries behind the first n are unused. No early return, so that many entries are read at once.
pub fn rest_unused<E: Entry>(entries: &[E], n: usize) -> bool
    ensures { result ≡ all E.is_unused (drop n entries.now) }
{
    let rest = &entries[n.min(entries.len())..];
    rest.iter()
        .fold(true, |unused, entry| unused & entry.is_unused())
}
