//! Each clause is a law.

ghost use Rattle.yaml_scan_laws.specs.Slots.{StartedGoesOn, LaterIsLone, BreakEndsLine, NearBefore, SlotsGoOn, NoneIsLone, LevelOpens, WhiteColumns, LetterColumns};

/// Candidates and columns after white.
pub fn laws_of_slots()
    // Candidates start on lines that are after.
    ensures started_goes_on { StartedGoesOn }
    // On a later line a `:` meets no candidate.
    ensures later_is_lone { LaterIsLone }
    // A break in white ends a line.
    ensures break_ends_line { BreakEndsLine }
    // What is near at a place is near before it.
    ensures near_before { NearBefore }
    // A depth's candidate stays, or goes.
    ensures slots_go_on { SlotsGoOn }
    // A `:` meets no candidate where there is none.
    ensures none_is_lone { NoneIsLone }
    // Right of the innermost level one opens; else none does.
    ensures level_opens { LevelOpens }
    // The column after white.
    ensures white_columns { WhiteColumns }
    // A printed ASCII character takes one column, on its line.
    ensures letter_columns { LetterColumns }
{}
