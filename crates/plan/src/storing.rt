// Entries stored one after the other, each by its place.
#![tactic(auto)]

ghost use Rattle.std.specs.Prelude.{◌≡◌, ℕ, ◌+◌, ◌≤◌, ◌<◌};
ghost use Rattle.flat.specs.Stored.{stored};

// Stores n entries from x on: each is what `entry` gives of its place, counted from x.
pub fn store<T: Copy, F: Fn(usize) -> T, const N: usize>(
    x: usize,
    n: usize,
    entry: F,
    array: &mut [T; N],
)
    requires room { x + n ≤ N }
    requires callable { (i : ℕ) → i < n → F.pre entry i }
    ensures { (f : ℕ → T) → ((i : ℕ) (v : T) → i < n → F.post entry i v → v ≡ f i) → array.new ≡ stored x f n array.old }
{
    for i in 0..n {
        array[x + i] = entry(i);
    }
}
