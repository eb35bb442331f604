//! Where characters begin.

ghost use Rattle.std.specs.Prelude.{◌≡◌};
ghost use Rattle.yaml_scan_types.specs.Marks.{starts as starts_of};

/// Whether a character begins with the byte.
// Inlined: a comparison, so that the bytes of a text are looked at side by side.
#[inline(always)]
pub fn starts(byte: u8) -> bool
    ensures { result ≡ starts_of byte }
{
    byte < 128 || byte >= 192
}
