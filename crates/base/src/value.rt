ghost use Rattle.std.specs.Prelude.{◌≡◌, Bool, Decides};

// A value of a setting: it can be copied, and `same` says yes exactly when two values are equal.
pub trait Value: Copy {
    ghost alike: { Self → Self → Bool };

    fn same(&self, other: &Self) -> bool
        ensures { result ≡ alike self.now other.now };

    ghost exact: { (x y : Self) → Decides (alike x y) (x ≡ y) };
}
