// Tests of the entries of a part.

ghost use Rattle.std.specs.Prelude.{◌≡◌, ◌||◌, Bool, false, fold};

// Some entry passes the test. All are tested, so that this becomes vector code.
pub fn any_of<T: Copy, F: Fn(T) -> bool>(entries: &[T], test: F) -> bool
    requires { F.IsAlwaysCallable test }
    ensures { (f : T → Bool) → ((v : T) (b : Bool) → F.post test v b → b ≡ f v) → result ≡ fold (λ b v. b || f v) false entries.now }
{
    entries.iter().fold(false, |found, v| found | test(*v))
}
