ghost use Rattle.std.specs.Prelude.{◌≡◌, ℕ, Bool, true, ℤ};

use values::head::Head;

// A test that a list of entries makes: what it says to a type number, flags and a mark is fixed.
pub trait Entry {
    // What is read where there is no entry.
    ghost none: { Self };

    ghost wild: { Self → Bool };

    ghost tells: { Self → ℕ → ℕ → ℤ → Bool };

    fn is_wild(&self) -> bool
        ensures { result ≡ wild self.now };

    fn says(&self, head: Head) -> bool
        ensures { result ≡ tells self.now head.ty head.flags head.mark };

    // A wildcard says yes to all.
    ghost opens: { (e : Self) → wild e ≡ true → (t f : ℕ) (m : ℤ) → tells e t f m ≡ true };
}
