//! Each clause is a law.

ghost use Rattle.yaml_scan_laws.specs.Steps.{WordsLeave, StartSteps, WhiteSteps, WordSteps, MarkSteps, OuterSteps, KeyStarts, KeySteps, KeyStops};

/// One step of a walk.
pub fn laws_of_steps()
    // Most words leave the white; plain scalars take all of it; block scalars take some.
    ensures words_leave { WordsLeave }
    // The stream's start is before all.
    ensures start_steps { StartSteps }
    // White is passed.
    ensures white_steps { WhiteSteps }
    // A word in a line, or a bracket, or a mark in brackets.
    ensures word_steps { WordSteps }
    // A `-`, a `?` or a lone `:` in a block.
    ensures mark_steps { MarkSteps }
    // A document's mark or a directive.
    ensures outer_steps { OuterSteps }
    // The first word of a key.
    ensures key_starts { KeyStarts }
    // A further word of a key.
    ensures key_steps { KeySteps }
    // The `:` of a key.
    ensures key_stops { KeyStops }
{}
