//! Each clause is a law.

ghost use Rattle.yaml_scan_laws.specs.Pushes.{InsideLeaves, RightLeaves, LeftCloses, MetIsRead, WordIsRead, MarkIsRead, OuterIsRead};

/// Words, marks and brackets, and the levels that they leave.
pub fn laws_of_pushes()
    // In brackets no level closes.
    ensures inside_leaves { InsideLeaves }
    // Right of the innermost level none closes, and none at its column.
    ensures right_leaves { RightLeaves }
    // The levels right of a column close, and those before them stay.
    ensures left_closes { LeftCloses }
    // What is after lexemes is read, where no `:` that is owed stays out.
    ensures met_is_read { MetIsRead }
    // A word in a line and a bracket change no level; in brackets a `?`, a `,` and a lone `:` neither.
    ensures word_is_read { WordIsRead }
    // A `-`, a `?` and a lone `:` in a block close the levels right of them, and open one where none
    // has their margin.
    ensures mark_is_read { MarkIsRead }
    // A document's marks and directives close all levels.
    ensures outer_is_read { OuterIsRead }
{}
