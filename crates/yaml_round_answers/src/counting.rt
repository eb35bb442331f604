//! The characters before places in a text.

ghost use Rattle.std.specs.Prelude.{◌≡◌, ◌≤◌, length, slice_range};
ghost use Rattle.std.specs.List.{count_by};
ghost use Rattle.yaml_scan_model.specs.scan_types.Marks.{starts as starts_of};
ghost use Rattle.yaml_round_answers.specs.Characters.{characters_before, Counts};

/// How many characters are before a place in a text, from which the next one is counted. Where each character of the text is a
/// byte, none is counted.
#[derive(Drop)]
pub(crate) struct Count {
    /// Each character of the text is a byte.
    pub is_single: bool,
    pub place: usize,
    pub characters: u64,
}

/// How many characters begin in a text.
// Without an early exit, so that the bytes are looked at side by side.
fn characters(text: &[u8]) -> u64
    ensures { result ≡ count_by starts_of text.now }
{
    let mut count = 0;
    for i in 0..text.len() {
        if starts(text[i]) {
            count += 1;
        }
    }
    count
}

impl Count {
    /// The beginning of a text.
    pub(crate) fn new(text: &[u8]) -> Count
        ensures { Counts text.now result }
    {
        Count {
            is_single: characters(text) == text.len() as u64,
            place: 0,
            characters: 0,
        }
    }

    // Goes on, or back, to a place.
    // Out of line: in most texts each character is a byte.
    #[inline(never)]
    fn go_to(&mut self, text: &[u8], place: usize)
        requires counts { Counts text.now self.old }
        requires within { place ≤ length text.now }
        ensures counts { Counts text.now self.new }
        ensures place { self.new.place ≡ place }
    {
        if self.place <= place {
            self.characters += characters(&text[self.place..place]);
        } else {
            self.characters -= characters(&text[place..self.place]);
        }
        self.place = place;
    }

    /// How many characters of the text are before a place; after its end, all.
    // Inlined: mostly each character is a byte.
    #[inline(always)]
    pub(crate) fn characters_before(&mut self, text: &[u8], place: u64) -> u64
        requires { Counts text.now self.old }
        ensures counts { Counts text.now self.new }
        ensures is { result ≡ characters_before text.now place }
    {
        let place = text.len().min(place as usize);
        if self.is_single {
            return place as u64;
        }
        self.go_to(text, place);
        self.characters
    }
}

/// How many characters of a text are before a place; after its end, all.
pub fn characters_before(text: &[u8], place: u64) -> u64
    ensures { result ≡ characters_before text.now place }
{
    characters(&text[..text.len().min(place as usize)])
}

use yaml_scan_model::starts;
