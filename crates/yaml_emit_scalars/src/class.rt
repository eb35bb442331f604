//! Classes of bytes, by which values are judged and copied in runs.

ghost use Rattle.std.specs.Prelude.{◌≡◌, ◌≤◌, ◌+◌, length};
ghost use Rattle.yaml_emit_scalars.specs.Classes as spec;

/// A space.
pub const SPACE: u16 = 0x001;
/// A break, or the first byte of one: LF, CR, and those of NEL, LS and PS.
pub const BREAK: u16 = 0x002;
/// Not printable, or the first byte of a character that may not be.
pub const SPECIAL: u16 = 0x004;
/// `"` and `\`.
pub const ESCAPED: u16 = 0x008;
/// Beyond ASCII.
pub const WIDE: u16 = 0x010;
/// `'`
pub const QUOTE: u16 = 0x020;
/// `, ? [ ] { }`, which end plain scalars in flow collections.
pub const FLOW: u16 = 0x040;
/// `:` and `#`, which end plain scalars by what is beside them.
pub const MARK: u16 = 0x080;
/// With what no plain scalar begins, or not with every byte after it: a space, an indicator, `-`, `?` and `.`.
pub const LEAD: u16 = 0x100;

static CLASSES: [u16; 256] = [
    0x004, 0x004, 0x004, 0x004, 0x004, 0x004, 0x004, 0x004, 0x004, 0x004, 0x002, 0x004, 0x004,
    0x006, 0x004, 0x004, 0x004, 0x004, 0x004, 0x004, 0x004, 0x004, 0x004, 0x004, 0x004, 0x004,
    0x004, 0x004, 0x004, 0x004, 0x004, 0x004, 0x101, 0x100, 0x108, 0x180, 0, 0x100, 0x100, 0x120,
    0, 0, 0x100, 0, 0x140, 0x100, 0x100, 0, 0, 0, 0, 0, 0, 0, 0, 0, 0, 0, 0x080, 0, 0, 0, 0x100,
    0x140, 0x100, 0, 0, 0, 0, 0, 0, 0, 0, 0, 0, 0, 0, 0, 0, 0, 0, 0, 0, 0, 0, 0, 0, 0, 0, 0, 0,
    0x140, 0x008, 0x140, 0, 0, 0x100, 0, 0, 0, 0, 0, 0, 0, 0, 0, 0, 0, 0, 0, 0, 0, 0, 0, 0, 0, 0,
    0, 0, 0, 0, 0, 0, 0x140, 0x100, 0x140, 0, 0x004, 0x010, 0x010, 0x010, 0x010, 0x010, 0x010,
    0x010, 0x010, 0x010, 0x010, 0x010, 0x010, 0x010, 0x010, 0x010, 0x010, 0x010, 0x010, 0x010,
    0x010, 0x010, 0x010, 0x010, 0x010, 0x010, 0x010, 0x010, 0x010, 0x010, 0x010, 0x010, 0x010,
    0x010, 0x010, 0x010, 0x010, 0x010, 0x010, 0x010, 0x010, 0x010, 0x010, 0x010, 0x010, 0x010,
    0x010, 0x010, 0x010, 0x010, 0x010, 0x010, 0x010, 0x010, 0x010, 0x010, 0x010, 0x010, 0x010,
    0x010, 0x010, 0x010, 0x010, 0x010, 0x010, 0x010, 0x010, 0x016, 0x010, 0x010, 0x010, 0x010,
    0x010, 0x010, 0x010, 0x010, 0x010, 0x010, 0x010, 0x010, 0x010, 0x010, 0x010, 0x010, 0x010,
    0x010, 0x010, 0x010, 0x010, 0x010, 0x010, 0x010, 0x010, 0x010, 0x010, 0x010, 0x010, 0x010,
    0x010, 0x012, 0x010, 0x010, 0x010, 0x010, 0x010, 0x010, 0x010, 0x010, 0x010, 0x010, 0x010,
    0x010, 0x014, 0x010, 0x010, 0x010, 0x010, 0x010, 0x010, 0x010, 0x010, 0x010, 0x010, 0x010,
    0x010, 0x010, 0x010, 0x010, 0x010,
];

fn class_of(byte: u8) -> u16
    ensures { result ≡ spec.class_of byte }
{
    CLASSES[byte as usize]
}

/// Whether the byte has one of these classes.
pub fn is_of(byte: u8, classes: u16) -> bool
    ensures { result ≡ spec.is_of classes byte }
{
    class_of(byte) & classes != 0
}

// The classes of eight bytes from a place on.
fn row_classes(text: &[u8], at: usize) -> u16
    requires { at + 8 ≤ length text.now }
    ensures { spec.Covers result text.now at (at + 8) }
{
    let mut all = 0;
    let mut count = 0;
    'bytes: while count < 8 {
        all |= class_of(text[at + count]);
        count += 1;
    }
    all
}

/// Any class.
const ANY: u16 = 0xFFFF;

/// A text of that many bytes may have any class: it is looked through run by run when it is written.
const LONG: usize = 64;

/// The classes that the bytes of a text have, or more.
pub fn classes_of(text: &[u8]) -> u16
    ensures { spec.Covers result text.now 0 (length text.now) }
{
    if text.len() >= LONG {
        return ANY;
    }
    let mut all = 0;
    let mut at = 0;
    'rows: while 8 <= text.len() - at {
        all |= row_classes(text, at);
        at += 8;
    }
    'bytes: while at < text.len() {
        all |= class_of(text[at]);
        at += 1;
    }
    all
}

/// The first place from there on whose byte has one of these classes, or the end.
pub fn first_of(text: &[u8], from: usize, classes: u16) -> usize
    requires { from ≤ length text.now }
    ensures { spec.FirstOf classes text.now from result }
{
    let mut at = from;
    'rows: while 8 <= text.len() - at && row_classes(text, at) & classes == 0 {
        at += 8;
    }
    'bytes: while at < text.len() && !is_of(text[at], classes) {
        at += 1;
    }
    at
}
