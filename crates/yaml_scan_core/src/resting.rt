//! A scanner between two calls of a session: it is kept without its text, which the session owns.

ghost use Rattle.std.specs.Prelude.{◌≡◌, ◌<◌, ◌^◌, [], not};
ghost use Rattle.yaml_scan_core.specs.Scanning.{taken_by};

use crate::scanner::Scanner;

impl<'a> Scanner<'a> {
    /// The same scanner without its text.
    pub fn at_rest(self) -> Scanner<'static>
        ensures same { result ≡ record self.entry { text = result.text } }
        ensures none { result.text.now ≡ [] }
    {
        Scanner { text: &[], ..self }
    }

    /// The same scanner over a text: what it reads on from is the text that it was made with.
    pub fn on<'b>(self, text: &'b [u8]) -> Scanner<'b>
        ensures same { result ≡ record self.entry { text = result.text } }
        ensures text { result.text.now ≡ text.now }
    {
        Scanner { text, ..self }
    }

    /// How many lexemes have all their tokens taken.
    pub fn taken(&self) -> usize
        requires { taken_by self.now < 2 ^ 64 }
        ensures { result ≡ taken_by self.now }
    {
        self.row.dropped + self.row.next
    }

    /// Whether more may be read: neither the stream's end nor the fault was.
    pub fn may_read_on(&self) -> bool
        ensures { result ≡ not self.now.ended }
    {
        !self.ended
    }
}
