//! A text in UTF-8 with no limit, and the place of its next character.

ghost use Rattle.std.specs.Prelude.{◌≡◌, ◌≢◌, ◌<◌, ◌≤◌, ◌+◌, ◌-◌, ◌^◌, ◌∷◌, ◌||◌, ◌++◌, [], length, take, IsUtf8, vec_len, vec_capacity, true, false};
ghost use Rattle.std.specs.Str.{chars, IsAscii};
ghost use Rattle.yaml_scan_types.specs.Ascii as ascii;
ghost use Rattle.yaml_scan_types.specs.Points as points;
ghost use Rattle.yaml_emit_output.specs.Placed.{due_blanks, mark_bytes, sign_bytes};

use crate::place::{place_break, place_broken, place_byte, place_mark, place_sign};
use std::alloc::Global;
use std::marker::Model;
use yaml_emit_layout::{Cursor, Encoding, LineBreak, Status};
use yaml_scan_runs::{continuing, place_blanks, place_if, place_text};

/// Room for what is around a text: a comma, a break, a space and single characters, and the spaces that count for nothing.
const AROUND: usize = 32;

/// A draft. Once it has stopped it has no room, and nothing more is put.
#[derive(Drop)]
pub struct Draft {
    /// The text is its first `len` bytes. What lies after them is set ahead, so that a byte is put without a call.
    text: Vec<u8>,
    len: usize,
    /// The column is `before + (len - origin)`: each byte after the origin is a character.
    origin: usize,
    before: usize,
    /// White space or what opens a flow collection was written last.
    white: bool,
    /// The line holds only indentation and block indicators.
    bare: bool,
    /// The document's last block scalar keeps its breaks.
    kept: bool,
    /// Full never comes: there is no limit.
    status: Status,
    line_break: LineBreak,
    width: usize,
}

impl Model for Draft {
    ghost use Rattle.yaml_emit_output.specs.Draft.{Page, page_of, IsDraft};

    ghost Value = { Page };

    ghost view = { page_of };

    ghost invariant = { IsDraft };
}

impl Draft {
    ghost use Rattle.yaml_emit_output.specs.Draft.{Page, Lays, line_mark, unlimited};
    ghost use Rattle.yaml_emit_layout.specs.LineStarts.{mark_word};
    ghost use Rattle.yaml_emit_layout.specs.Sink.{Puts};
    ghost use Rattle.yaml_emit_layout.specs.Text.{letter};
    ghost use Rattle.yaml_emit_layout.specs.Layout.{◌▹◌, stay, when, char, break, letters, gap, line, opener, new_line, keep, after_block, is_past, start, must_break, after_text, too_deep, order_mark, Layout};

    /// An empty one.
    pub fn new(alloc: Global, line_break: LineBreak, width: usize) -> Draft
        ensures output { result.output ≡ record {
          bytes = [];
          limit = unlimited;
          encoding = Encoding.Utf8;
          status = Status.Going;
          cursor = start;
        } }
        ensures set { (result.line_break ≡ line_break) × (result.width ≡ width) }
    {
        let start = Cursor {
            column: 0,
            white: true,
            bare: true,
            kept: false,
        };
        Draft::resumed(alloc, line_break, width, start)
    }

    /// An empty one that goes on in a line: its first character is at that cursor.
    pub fn resumed(alloc: Global, line_break: LineBreak, width: usize, cursor: Cursor) -> Draft
        requires column { cursor.column < 2 ^ 62 }
        ensures output { result.output ≡ record {
          bytes = [];
          limit = unlimited;
          encoding = Encoding.Utf8;
          status = Status.Going;
          cursor = cursor;
        } }
        ensures set { (result.line_break ≡ line_break) × (result.width ≡ width) }
    {
        Draft {
            text: Vec::new(alloc),
            len: 0,
            origin: 0,
            before: cursor.column as usize,
            white: cursor.white,
            bare: cursor.bare,
            kept: cursor.kept,
            status: Status::Going,
            line_break,
            width,
        }
    }

    /// The bytes of the text.
    pub fn into_bytes(self) -> Vec<u8>
        ensures { result.items ≡ self.output.bytes }
    {
        let Draft { mut text, len, .. } = self;
        text.truncate(len);
        text
    }

    /// Whether the text goes on.
    pub fn status(&self) -> Status
        ensures { result ≡ self.now.output.status }
    {
        self.status
    }

    /// The place of the next character.
    pub fn cursor(&self) -> Cursor
        ensures { result ≡ self.now.output.cursor }
    {
        Cursor {
            column: self.column() as u64,
            white: self.white,
            bare: self.bare,
            kept: self.kept,
        }
    }

    /// The text.
    pub fn text(&self) -> &str
        ensures text { result.now ≡ self.now.output.bytes }
        ensures encoding { self.now.output.encoding ≡ Encoding.Utf8 }
        ensures status { self.now.output.status ≢ Status.Full }
    {
        // Sound, since the text is UTF-8.
        unsafe { str::from_utf8_unchecked(&self.text[..self.len]) }
    }

    /// Whether the column is greater than the width.
    pub fn is_past(&self) -> bool
        ensures { result ≡ is_past self.now.width self.now.output.cursor }
    {
        self.width < self.column()
    }

    /// The column of the next character.
    pub fn column(&self) -> usize
        ensures { result ≡ self.now.output.cursor.column }
    {
        self.before + (self.len - self.origin)
    }

    /// Whether the line holds only indentation and block indicators.
    pub fn is_bare(&self) -> bool
        ensures { result ≡ self.now.output.cursor.bare }
    {
        self.bare
    }

    /// Whether the document's last block scalar keeps its breaks.
    pub fn is_kept(&self) -> bool
        ensures { result ≡ self.now.output.cursor.kept }
    {
        self.kept
    }

    /// That many characters further no column is past the width.
    pub fn left(&self) -> usize
        ensures { result ≡ self.now.width - self.now.output.cursor.column }
    {
        self.width.saturating_sub(self.column())
    }

    /// Memory was refused, or a limit is passed: nothing more is put.
    #[cold]
    pub fn stop(&mut self)
        ensures text { self.new.output.bytes ≡ self.old.output.bytes }
        ensures limit { self.new.output.limit ≡ self.old.output.limit }
        ensures encoding { self.new.output.encoding ≡ self.old.output.encoding }
        ensures stopped { self.new.output.status ≡ Status.Starved }
        ensures cursor { self.new.output.cursor ≡ self.old.output.cursor }
        ensures set { (self.new.line_break ≡ self.old.line_break)
            × (self.new.width ≡ self.old.width) }
    {
        self.status = Status::Starved;
        self.text.truncate(self.len);
    }

    /// An indentation is too deep: this is marked, and nothing more is put.
    #[cold]
    pub fn stop_deep(&mut self)
        ensures puts { Puts self.old.output self.new.output too_deep }
        ensures stopped { self.new.output.status ≢ Status.Going }
        ensures set { (self.new.line_break ≡ self.old.line_break)
            × (self.new.width ≡ self.old.width) }
    {
        if self.status.is_going() {
            self.status = Status::Deep;
            self.text.truncate(self.len);
        }
    }

    // Whether a break comes before that indentation: else the line is bare up to there.
    fn breaks(&self, comma: bool, indent: usize) -> bool
        ensures due { result ≡ (comma || must_break indent self.now.output.cursor) }
        ensures short { result ≡ false → self.now.output.cursor.column ≤ indent }
    {
        if comma | !self.bare {
            return true;
        }
        let column = self.column();
        (indent < column) | ((column == indent) & !self.white)
    }

    /// A line that begins so: a comma in the line before where one is due; a break, unless the line is bare up to the indentation;
    /// the indentation; and a character in ASCII, of which 0 is none. After a block indicator the line is still bare.
    pub fn put_line(&mut self, comma: bool, indent: usize, mark: u8, block: bool)
        requires indent { indent < 2 ^ 32 }
        requires mark { mark < 0x80 }
        ensures { Lays self.old self.new
            (when comma (char ascii.comma) ▹ (line self.old.line_break indent
            ▹ line_mark mark block)) stay }
    {
        if self.has_room(indent) {
            let breaks = self.breaks(comma, indent);
            let count = blanks_due(breaks, indent, self.column());
            let buf = self.text.as_mut_slice();
            let at = place_if(buf, self.len, comma, b',');
            let at = place_broken(buf, at, breaks, self.line_break);
            let at = place_blanks(buf, at, count);
            self.len = place_mark(buf, at, mark);
            self.before = indent;
            self.origin = at;
            self.white = mark == 0;
            self.bare = (mark == 0) | block;
        }
    }

    /// A comma where one is due, a space, and a character in ASCII in the same line, where 0 is none.
    pub fn put_inline(&mut self, comma: bool, mark: u8)
        requires mark { mark < 0x80 }
        ensures { Lays self.old self.new (when comma (char ascii.comma) ▹ mark_word mark) stay }
    {
        if self.has_room(0) {
            let white = !comma & self.white;
            let none = mark == 0;
            let buf = self.text.as_mut_slice();
            let at = place_if(buf, self.len, comma, b',');
            let at = place_if(buf, at, !(none | white), b' ');
            self.len = place_mark(buf, at, mark);
            self.white = none & white;
            self.bare = none & (!comma & self.bare);
        }
    }

    /// A word in ASCII, after a space where one is due: `!` and a space where it is marked, a character, a text, and another
    /// character. 0 is none.
    pub fn put_word(&mut self, marked: bool, first: u8, text: &[u8], last: u8)
        requires ascii { IsAscii text.now }
        requires first { first < 0x80 }
        requires last { last < 0x80 }
        ensures { Lays self.old self.new
            (gap ▹ (letters (((sign_bytes marked ++ mark_bytes first) ++ text.now)
            ++ mark_bytes last) ▹ after_text)) stay }
    {
        if self.has_room(text.len()) {
            let buf = self.text.as_mut_slice();
            let at = place_if(buf, self.len, !self.white, b' ');
            let at = place_sign(buf, at, marked);
            let at = place_mark(buf, at, first);
            let at = place_text(buf, at, text);
            self.len = place_mark(buf, at, last);
            self.white = false;
            self.bare = false;
        }
    }

    /// A separating space, unless white space was last.
    pub fn put_gap(&mut self)
        ensures { Lays self.old self.new gap stay }
    {
        if self.has_room(0) {
            self.len = place_if(self.text.as_mut_slice(), self.len, !self.white, b' ');
            self.white = true;
        }
    }

    /// What opens a flow collection needs no space after it.
    pub fn put_opener(&mut self, bracket: u8)
        requires bracket { bracket < 0x80 }
        ensures { Lays self.old self.new (opener bracket) stay }
    {
        if self.has_room(0) {
            let buf = self.text.as_mut_slice();
            let at = place_if(buf, self.len, !self.white, b' ');
            self.len = place_byte(buf, at, bracket);
            self.white = true;
            self.bare = false;
        }
    }

    // Characters, of whose bytes that many continue one.
    fn put_letters(&mut self, text: &[u8], continued: usize)
        requires some { 0 < length text.now }
        requires utf8 { IsUtf8 text.now }
        requires size { length text.now ≡ length (chars text.now) + continued }
        ensures { Lays self.old self.new (letters (chars text.now)) stay }
    {
        if self.has_room(text.len()) {
            self.len = place_text(self.text.as_mut_slice(), self.len, text);
            self.origin += continued;
            self.white = false;
            self.bare = false;
        }
    }

    /// A text in ASCII, as it is.
    pub fn put_text(&mut self, text: &[u8])
        requires some { 0 < length text.now }
        requires ascii { IsAscii text.now }
        ensures { Lays self.old self.new (letters text.now) stay }
    {
        self.put_letters(text, 0);
    }

    /// A text, as it is, of which some may be beyond ASCII where it is wide: a character takes a column.
    pub fn put_part(&mut self, text: &str, wide: bool)
        requires narrow { wide ≡ false → IsAscii text.now }
        ensures { Lays self.old self.new (letters (chars text.now)) stay }
    {
        if !text.is_empty() {
            self.put_letters(text.as_bytes(), continued(text, wide));
        }
    }

    /// A character, as it is.
    pub fn put_char(&mut self, c: char)
        ensures { Lays self.old self.new (char c) stay }
    {
        let mut buffer = [0; 4];
        let bytes = c.encode_utf8(&mut buffer).as_bytes();
        self.put_letters(bytes, bytes.len() - 1);
    }

    /// A character that ends a line.
    pub fn put_break(&mut self, c: char)
        ensures { Lays self.old self.new (break c) stay }
    {
        if self.has_room(0) {
            let mut buffer = [0; 4];
            let ending = c.encode_utf8(&mut buffer).as_bytes();
            self.len = place_text(self.text.as_mut_slice(), self.len, ending);
            self.origin = self.len;
            self.before = 0;
            self.white = true;
            self.bare = true;
        }
    }

    /// The break that is set.
    pub fn put_new_line(&mut self)
        ensures { Lays self.old self.new (new_line self.old.line_break) stay }
    {
        if self.has_room(0) {
            self.len = place_break(self.text.as_mut_slice(), self.len, self.line_break);
            self.origin = self.len;
            self.before = 0;
            self.white = true;
            self.bare = true;
        }
    }

    /// The byte order mark, where the text is to be encoded in UTF-16; it takes no column.
    pub fn put_order_mark(&mut self, encoding: Encoding)
        ensures { Lays self.old self.new (order_mark encoding) stay }
    {
        match encoding {
            Encoding::Utf8 => (),
            _ => self.put_mark(),
        }
    }

    fn put_mark(&mut self)
        ensures { Lays self.old self.new (λ c rest. letter points.byte_order_mark ∷ rest c) stay }
    {
        if self.has_room(0) {
            self.len = place_text(self.text.as_mut_slice(), self.len, b"\xEF\xBB\xBF");
            self.origin += 3;
        }
    }

    /// After a scalar in one line or in quotes neither white space was last nor is the line bare.
    pub fn set_after_text(&mut self)
        ensures { Lays self.old self.new after_text stay }
    {
        self.white = false;
        self.bare = false;
    }

    /// After a block scalar white space was last.
    pub fn set_after_block(&mut self)
        ensures { Lays self.old self.new after_block stay }
    {
        self.white = true;
    }

    /// Whether the document's last block scalar keeps its breaks.
    pub fn set_kept(&mut self, kept: bool)
        ensures { Lays self.old self.new (keep kept) stay }
    {
        self.kept = kept;
    }

    // Whether there is room for a text of that many bytes, and what is around it: else the draft has stopped.
    fn has_room(&mut self, count: usize) -> bool
        requires few { count < 2 ^ 63 }
        ensures puts { Puts self.old.output self.new.output stay }
        ensures set { (self.new.line_break ≡ self.old.line_break)
            × (self.new.width ≡ self.old.width) }
        ensures room { result ≡ true → (count + 32 ≤ self.new.room)
            × (self.old.room ≤ self.new.room) }
        ensures stopped { result ≡ false → self.new.output.status ≢ Status.Going }
    {
        count + AROUND <= self.text.len() - self.len || self.grow(count + AROUND)
    }

    #[cold]
    fn grow(&mut self, count: usize) -> bool
        requires more { self.old.room < count }
        requires few { count < 2 ^ 63 + 32 }
        ensures puts { Puts self.old.output self.new.output stay }
        ensures set { (self.new.line_break ≡ self.old.line_break)
            × (self.new.width ≡ self.old.width) }
        ensures room { result ≡ true → (count ≤ self.new.room) × (self.old.room ≤ self.new.room) }
        ensures stopped { result ≡ false → self.new.output.status ≢ Status.Going }
    {
        if !self.status.is_going() {
            return false;
        }
        let size = self.len.saturating_add(count).max(2 * self.len).max(256);
        match self.text.reserve(size - self.text.len()) {
            Ok(()) => {
                fill_to(&mut self.text, size);
                true
            }
            Err(_) => {
                self.stop();
                false
            }
        }
    }
}

static ZEROS: [u8; 1024] = [0; 1024];

// Zeros up to that length, for which there is room, a block at a time.
fn fill_to(bytes: &mut Vec<u8>, len: usize)
    requires { (vec_len bytes.old ≤ len) × (len ≤ vec_capacity bytes.old) }
    ensures front { take (vec_len bytes.old) bytes.new.items ≡ bytes.old.items }
    ensures len { vec_len bytes.new ≡ len }
{
    while bytes.len() < len {
        let step = (len - bytes.len()).min(ZEROS.len());
        if bytes.extend_from_slice(&ZEROS[..step]).is_err() {
            unreachable!();
        }
    }
}

// How many spaces are still due in a line.
fn blanks_due(breaks: bool, indent: usize, column: usize) -> usize
    requires { breaks ≡ false → column ≤ indent }
    ensures { result ≡ due_blanks breaks indent column }
{
    if breaks { indent } else { indent - column }
}

// How many bytes of a text continue a character; where it isn't wide, none does.
fn continued(text: &str, wide: bool) -> usize
    requires some { 0 < length text.now }
    requires narrow { wide ≡ false → IsAscii text.now }
    ensures size { length text.now ≡ length (chars text.now) + result }
    ensures less { result < length text.now }
{
    if wide {
        continuing(text.as_bytes(), 0, text.len())
    } else {
        0
    }
}
