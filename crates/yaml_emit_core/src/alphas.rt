//! Bytes of names and tags.

ghost use Rattle.std.specs.Prelude.{◌≡◌};
ghost use Rattle.std.specs.List.{list_all};
ghost use Rattle.yaml_scan_types.specs.Classes.{is_alpha_byte};
ghost use Rattle.yaml_emit_layout.specs.Tags.{keeps_byte};

/// `4` one of `0-9 A-Z a-z _ -`, `2` one more that a tag's suffix keeps, `1` one that only a verbatim tag or a prefix keeps.
static NAMES: [u8; 256] = *b"\
    00000000000000000000000000000000\
    00002022222214224444444444220202\
    24444444444444444444444444410104\
    04444444444444444444444444400020\
    00000000000000000000000000000000\
    00000000000000000000000000000000\
    00000000000000000000000000000000\
    00000000000000000000000000000000";

fn is_alpha(byte: u8) -> bool
    ensures { result ≡ is_alpha_byte byte }
{
    NAMES[byte as usize] == b'4'
}

/// Whether each byte of a name is one of `0-9 A-Z a-z _ -`.
pub fn are_alphas(name: &[u8]) -> bool
    ensures { result ≡ list_all is_alpha_byte name.now }
{
    for i in 0..name.len() {
        if !is_alpha(name[i]) {
            return false;
        }
    }
    true
}

/// Whether a tag keeps a byte as it is; a verbatim one and a prefix keep `, [ ]` too.
pub fn keeps_byte(wide: bool, byte: u8) -> bool
    ensures { result ≡ keeps_byte wide byte }
{
    if wide {
        NAMES[byte as usize] >= b'1'
    } else {
        NAMES[byte as usize] >= b'2'
    }
}
