//! The function's contract is a law.

ghost use Rattle.yaml_round_laws.specs.MarkAlone.{BeginningIsAMark};

/// An input begins with nothing exactly where its first document has no `---` and is one tag alone, which spells `!`.
pub fn beginning_is_a_mark()
    ensures { BeginningIsAMark }
{}
