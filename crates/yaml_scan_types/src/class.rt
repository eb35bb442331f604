//! The classes of bytes: what is at a place of a text. A place from the text's length on is past its end.

ghost use Rattle.std.specs.Prelude.{◌≡◌, ◌+◌, ◌-◌, ◌<◌, pos, length, true};
ghost use Rattle.yaml_scan_types.specs.Ascii as ascii;
ghost use Rattle.yaml_scan_types.specs.Marks.{byte, break_width};
ghost use Rattle.yaml_scan_types.specs.Classes.{is_alpha, is_digit, is_hex, is_ascii, is_bom, is_space, is_tab, is_blank, is_break, is_crlf, is_z, is_breakz, is_blankz, is_printable, width, hex_value_of, is_alpha_byte, is_digit_byte, is_hex_byte, is_printable_by};

// The byte that is there, or 0 past the end.
fn byte_here(string: &[u8], place: usize) -> u8
    ensures { result ≡ byte string.now place }
{
    string.get(place).copied().unwrap_or(0)
}

// The byte that many places ahead, or 0 past the end.
fn byte_at(string: &[u8], place: usize, ahead: usize) -> u8
    requires { ahead < 3 }
    ensures { result ≡ byte string.now (place + ahead) }
{
    match place.checked_add(ahead) {
        Some(at) => string.get(at).copied().unwrap_or(0),
        None => 0,
    }
}

#[tactic(auto, unfolding(crate::specs::Classes::is_digit_byte))]
fn is_digit_of(byte: u8) -> bool
    ensures { result ≡ is_digit_byte byte }
{
    byte >= b'0' && byte <= b'9'
}

#[tactic(auto, unfolding(crate::specs::Classes::is_hex_byte))]
fn is_hex_of(byte: u8) -> bool
    ensures { result ≡ is_hex_byte byte }
{
    is_digit_of(byte) || (byte >= b'A' && byte <= b'F' || byte >= b'a' && byte <= b'f')
}

#[tactic(auto, unfolding(crate::specs::Classes::is_alpha_byte, crate::specs::Classes::is_digit_byte))]
fn is_alpha_of(byte: u8) -> bool
    ensures { result ≡ is_alpha_byte byte }
{
    matches!(byte, b'0'..=b'9' | b'A'..=b'Z' | b'a'..=b'z' | b'_' | b'-')
}

/// Whether one of `0-9 A-Z a-z _ -` is there.
pub fn IS_ALPHA(string: &[u8], place: usize) -> bool
    ensures { result ≡ is_alpha string.now place }
{
    is_alpha_of(byte_here(string, place))
}

/// Whether one of `0-9` is there.
pub fn IS_DIGIT(string: &[u8], place: usize) -> bool
    ensures { result ≡ is_digit string.now place }
{
    is_digit_of(byte_here(string, place))
}

// The value of a hexadecimal digit.
#[tactic(auto, unfolding(crate::specs::Classes::is_hex_byte, crate::specs::Classes::hex_value_of, crate::specs::Classes::is_digit_byte))]
fn hex_digit_of(byte: u8) -> u8
    requires { is_hex_byte byte ≡ true }
    ensures { result ≡ hex_value_of byte }
{
    if byte >= b'a' {
        byte - 87
    } else if byte >= b'A' {
        byte - 55
    } else {
        byte - 48
    }
}

/// The value of the digit that is there.
#[tactic(auto, unfolding(crate::specs::Classes::is_digit_byte))]
pub fn AS_DIGIT(string: &[u8], place: usize) -> i32
    requires { is_digit string.now place ≡ true }
    ensures { result ≡ pos (byte string.now place - ascii.digit_zero) }
{
    i32::from(byte_here(string, place) - b'0')
}

/// Whether one of `0-9 A-F a-f` is there.
pub fn IS_HEX_AT(string: &[u8], place: usize) -> bool
    ensures { result ≡ is_hex string.now place }
{
    is_hex_of(byte_here(string, place))
}

/// The value of the hexadecimal digit that is there.
pub fn AS_HEX_AT(string: &[u8], place: usize) -> i32
    requires { is_hex string.now place ≡ true }
    ensures { result ≡ pos (hex_value_of (byte string.now place)) }
{
    i32::from(hex_digit_of(byte_here(string, place)))
}

/// Whether one of 00 to 7F is there.
pub fn IS_ASCII(string: &[u8], place: usize) -> bool
    ensures { result ≡ is_ascii string.now place }
{
    match string.get(place) {
        Some(byte) => *byte < 0x80,
        None => false,
    }
}

/// Whether U+FEFF is there, EF BB BF.
pub fn IS_BOM(string: &[u8], place: usize) -> bool
    ensures { result ≡ is_bom string.now place }
{
    byte_here(string, place) == 0xEF
        && (byte_at(string, place, 1) == 0xBB && byte_at(string, place, 2) == 0xBF)
}

/// Whether a space is there.
pub fn IS_SPACE(string: &[u8], place: usize) -> bool
    ensures { result ≡ is_space string.now place }
{
    byte_here(string, place) == b' '
}

/// Whether a tab is there.
pub fn IS_TAB(string: &[u8], place: usize) -> bool
    ensures { result ≡ is_tab string.now place }
{
    byte_here(string, place) == b'\t'
}

/// Whether a space or a tab is there.
pub fn IS_BLANK(string: &[u8], place: usize) -> bool
    ensures { result ≡ is_blank string.now place }
{
    let byte = byte_here(string, place);
    byte == b' ' || byte == b'\t'
}

// How many bytes the break has that is there, or 0.
#[tactic(auto, unfolding(crate::specs::Marks::break_of))]
fn break_width_of(string: &[u8], place: usize) -> usize
    ensures { result ≡ break_width string.now place }
{
    let first = byte_here(string, place);
    let second = byte_at(string, place, 1);
    let third = byte_at(string, place, 2);
    match (first, second, third) {
        (b'\r', b'\n', _) | (0xC2, 0x85, _) => 2,
        (b'\r' | b'\n', _, _) => 1,
        (0xE2, 0x80, 0xA8 | 0xA9) => 3,
        _ => 0,
    }
}

/// Whether a break begins there: CR, LF, NEL (C2 85), LS (E2 80 A8) or PS (E2 80 A9).
pub fn IS_BREAK(string: &[u8], place: usize) -> bool
    ensures { result ≡ is_break string.now place }
{
    break_width_of(string, place) > 0
}

/// Whether CR LF is there.
pub fn IS_CRLF(string: &[u8], place: usize) -> bool
    ensures { result ≡ is_crlf string.now place }
{
    byte_here(string, place) == b'\r' && byte_at(string, place, 1) == b'\n'
}

/// Whether a byte 0 is there, or the place is past the end.
pub fn IS_Z(string: &[u8], place: usize) -> bool
    ensures { result ≡ is_z string.now place }
{
    byte_here(string, place) == b'\0'
}

/// Whether a break, a byte 0 or the end is there.
pub fn IS_BREAKZ(string: &[u8], place: usize) -> bool
    ensures { result ≡ is_breakz string.now place }
{
    IS_BREAK(string, place) || IS_Z(string, place)
}

/// Whether a blank, a break, a byte 0 or the end is there.
pub fn IS_BLANKZ(string: &[u8], place: usize) -> bool
    ensures { result ≡ is_blankz string.now place }
{
    IS_BLANK(string, place) || IS_BREAKZ(string, place)
}

#[tactic(auto, unfolding(crate::specs::Classes::is_printable_by, crate::specs::Classes::is_special))]
fn is_printable_of(first: u8, second: u8, third: u8) -> bool
    ensures { result ≡ is_printable_by first second third }
{
    match first {
        b'\n' | 0x20..=0x7E => true,
        0xC2 => second >= 0xA0 && second <= 0xBF,
        0xED => second < 0xA0,
        0xEF => !matches!((second, third), (0xBB, 0xBF) | (0xBF, 0xBE | 0xBF)),
        _ => first >= 0xC3 && first <= 0xF4,
    }
}

/// Whether a character begins there that is printed as it is: 0A, 20 to 7E, A0 to D7FF, E000 to FFFD except for
/// U+FEFF, 10000 and above.
pub fn IS_PRINTABLE(string: &[u8], place: usize) -> bool
    ensures { result ≡ is_printable string.now place }
{
    is_printable_of(
        byte_here(string, place),
        byte_at(string, place, 1),
        byte_at(string, place, 2),
    )
}

/// How many bytes the character has that begins there, by its first byte, or 0 where none begins.
#[tactic(auto, unfolding(crate::specs::Classes::width_of))]
pub fn WIDTH(string: &[u8], place: usize) -> usize
    ensures { result ≡ width string.now place }
{
    match string.get(place).copied() {
        Some(0..=0x7F) => 1,
        Some(0xC0..=0xDF) => 2,
        Some(0xE0..=0xEF) => 3,
        Some(0xF0..=0xF7) => 4,
        _ => 0,
    }
}
