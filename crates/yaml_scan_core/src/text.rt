//! Looks at a text. After its end is a byte 0, which it doesn't hold.

ghost use Rattle.std.specs.Prelude.{◌≡◌, ◌+◌, ◌-◌, ◌≤◌, length};
ghost use Rattle.yaml_scan_model.specs.Runs.{columns_over};

pub(crate) use yaml_scan_text::{
    break_width, byte, is_blank_or_end, is_thrice, line_end, skip_spaces,
};

/// How many bytes between two places continue a character.
pub(crate) fn continuing(text: &[u8], from: usize, to: usize) -> usize
    requires order { from ≤ to }
    requires inside { to ≤ length text.now }
    ensures { result + columns_over (to - from) text.now from ≡ to - from }
{
    yaml_scan_runs::continuing(text, from, to)
}
