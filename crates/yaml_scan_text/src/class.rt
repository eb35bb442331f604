//! Bytes of names, tags and URIs, and brackets.

ghost use Rattle.std.specs.Prelude.{◌≡◌, ◌≤◌, length};
ghost use Rattle.yaml_scan_types.specs.Classes.{is_alpha_byte};
ghost use Rattle.yaml_scan_history.specs.Plain.{is_bracket};
ghost use Rattle.yaml_scan_history.specs.Uris.{IsKept};
ghost use Rattle.yaml_scan_history.specs.Written.{is_kept};
ghost use Rattle.yaml_scan_text.specs.Classes as spec;

/// `4` an alpha, `2` one more that a URI holds, `1` one that only a verbatim tag or a prefix holds.
static NAMES: [u8; 256] = *b"\
    00000000000000000000000000000000\
    02002022222214224444444444220202\
    24444444444444444444444444410104\
    04444444444444444444444444400020\
    00000000000000000000000000000000\
    00000000000000000000000000000000\
    00000000000000000000000000000000\
    00000000000000000000000000000000";

/// One of `, [ ] { }`.
#[tactic(auto, unfolding(yaml_scan_history::specs::Plain::is_bracket))]
pub fn is_bracket(byte: u8) -> bool
    ensures { result ≡ is_bracket byte }
{
    matches!(byte, b',' | b'[' | b']' | b'{' | b'}')
}

/// One of `0-9 A-Z a-z _ -`.
fn is_alpha(byte: u8) -> bool
    ensures { result ≡ is_alpha_byte byte }
{
    NAMES[byte as usize] == b'4'
}

/// Whether a URI holds the byte as it is; that of a verbatim tag or a prefix holds `, [ ]` too.
fn is_of_uri(byte: u8, wide: bool) -> bool
    ensures { result ≡ is_kept wide byte }
{
    if wide {
        NAMES[byte as usize] >= b'1'
    } else {
        NAMES[byte as usize] >= b'2'
    }
}

/// The place after the alphas that are there.
pub fn alphas(text: &[u8], from: usize) -> usize
    requires { from ≤ length text.now }
    ensures { spec.AreAlphas text.now from result }
{
    let mut at = from;
    'bytes: while at < text.len() && is_alpha(text[at]) {
        at += 1;
    }
    at
}

/// The place after the bytes there that a URI holds as they are.
#[tactic(auto, using(yaml_scan_history::proofs::UrisLemmas::past_uri))]
pub(crate) fn uri_run(text: &[u8], from: usize, wide: bool) -> usize
    requires { from ≤ length text.now }
    ensures run { IsKept wide text.now from result }
    ensures inside { result ≤ length text.now }
{
    let mut at = from;
    'bytes: while at < text.len() && is_of_uri(text[at], wide) {
        at += 1;
    }
    at
}
