//! The next token: which it is, and that it is taken.

ghost use Rattle.std.specs.Prelude.{◌≡◌, ◌<◌, ◌≤◌, length};
ghost use Rattle.yaml_scan_model.specs.Coming.{front_of};
ghost use Rattle.yaml_scan_core.specs.Asked.{HasTaken, IsFront, ShowsKind, Waits, behind_first, front_lexeme};
ghost use Rattle.yaml_scan_core.specs.Handed.{to_come};
ghost use Rattle.yaml_scan_core.specs.Scanning.{stream_of};
ghost use Rattle.yaml_scan_core.specs.Waiting.{IsRead, TakesNeeded, TellsNeeded};

use crate::scanner::Scanner;
use yaml_scan_model::Kind;

impl Scanner<'_> {
    /// The kind of the next token. Where none is known, more is read. `Failed` means the fault, or out of memory, and
    /// `Nothing` after the stream's end.
    pub fn kind(&mut self) -> Kind
        requires { Waits self.old }
        ensures waits { Waits self.new }
        ensures stream { stream_of self.new ≡ stream_of self.old }
        ensures shows { ShowsKind result (to_come self.old) self.new }
        // A token that is settled is returned again, and nothing is read.
        ensures known { self.old.row.next < self.old.row.settled
            → (self.new ≡ self.old) × (result ≡ (front_lexeme self.old).front) }
        ensures needs { self.old.batch ≡ 1 → IsRead self.old
            → TellsNeeded result self.old self.new }
    {
        if self.row.next < self.row.settled {
            return self.row.lexemes[self.row.next].front;
        }
        self.kind_behind()
    }

    /// The kind of the next token, where no settled lexeme waits.
    fn kind_behind(&mut self) -> Kind
        requires waits { Waits self.old }
        requires none { self.old.row.settled ≤ self.old.row.next }
        ensures waits { Waits self.new }
        ensures stream { stream_of self.new ≡ stream_of self.old }
        ensures shows { ShowsKind result (to_come self.old) self.new }
        ensures needs { self.old.batch ≡ 1 → IsRead self.old
            → TellsNeeded result self.old self.new }
    {
        if self.ended {
            return Kind::Nothing;
        }
        self.read_on();
        self.row.lexemes[self.row.next].front
    }

    /// The next token, of that kind, is taken.
    pub fn skip(&mut self, kind: Kind)
        requires waits { Waits self.old }
        requires front { IsFront kind self.old }
        ensures waits { Waits self.new }
        ensures stream { stream_of self.new ≡ stream_of self.old }
        ensures rest { to_come self.new ≡ behind_first (to_come self.old) }
        ensures taken { (front_lexeme self.old).front ≡ (front_lexeme self.old).kind
            → HasTaken self.new (front_of (to_come self.old).tokens).body }
        ensures kept { TakesNeeded self.old self.new }
    {
        self.row.skip(kind);
    }
}
