//! Laws of the definitions.

ghost use Rattle.std.specs.Prelude.{◌≡◌};

/// For a check of lemmas by themselves.
pub fn lemmas(x: usize)
    ensures { x ≡ x }
{}
