//! Each clause is a law.

ghost use Rattle.yaml_scan_laws.specs.Walks.{LevelsPart, WalkEnds, WalkStarts, WalkWhite, WalkWord, WalkMark, WalkOuter, WalkStops, WalkKeyStarts, WalkKeyGoes, WalkKeyStops, WalkAsks, DeeperLeaves, WalkAnswers, WalkGoes, WalkSays};

/// Walks over words, signs, keys, marks and the end.
pub fn laws_of_walks()
    // Levels beside others rise from these on.
    ensures levels_part { LevelsPart }
    // The innermost level owes a BLOCK-END.
    ensures walk_ends { WalkEnds }
    // A walk starts after the stream's start.
    ensures walk_starts { WalkStarts }
    // A walk passes white.
    ensures walk_white { WalkWhite }
    // A walk passes a word in a line, a bracket, or a mark in brackets.
    ensures walk_word { WalkWord }
    // A walk passes a `-`, a `?` or a lone `:` in a block.
    ensures walk_mark { WalkMark }
    // A walk passes a document's mark or a directive.
    ensures walk_outer { WalkOuter }
    // A walk stops at the stream's end: the text's tokens are those of the walk, without fault.
    ensures walk_stops { WalkStops }
    // A walk passes the first word of a key.
    ensures walk_key_starts { WalkKeyStarts }
    // A walk passes a further word of a key.
    ensures walk_key_goes { WalkKeyGoes }
    // A walk passes the `:` of a key.
    ensures walk_key_stops { WalkKeyStops }
    // A walk passes a `?` in brackets.
    ensures walk_asks { WalkAsks }
    // What is deeper leaves outer depths clear.
    ensures deeper_leaves { DeeperLeaves }
    // A walk passes the `:` of a `?` in brackets.
    ensures walk_answers { WalkAnswers }
    // A walk passes a further word of a node, whichever it is.
    ensures walk_goes { WalkGoes }
    // Another spelling of the same tokens is a walk too; white within a key is passed.
    ensures walk_says { WalkSays }
{}
