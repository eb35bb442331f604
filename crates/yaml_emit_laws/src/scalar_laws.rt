//! Each function's contract is a law.

ghost use Rattle.yaml_emit_laws.specs.KeysLaws.{NearIsFresh, SimpleKeysAreNear};
ghost use Rattle.yaml_emit_laws.specs.PlainLaws.{PlainIsReadBack};
ghost use Rattle.yaml_emit_laws.specs.StandsLaws.{LinesStopPlain, PlainHasGap, PlainStands, ScalarsAreWords, SingleStands};
ghost use Rattle.yaml_emit_laws.specs.SingleLaws.{SingleLinesAreReadBack};
ghost use Rattle.yaml_emit_laws.specs.Stops.{CharactersAreSolid, PlainGoesOn, StopsBehindLines, StopsEndPlain, WhatStopsPlain};
ghost use Rattle.yaml_emit_laws.specs.StylesLaws.{PagesIndent, StylesAreAllowed};
ghost use Rattle.yaml_emit_laws.specs.QuotedLaws.{SingleIsReadBack};

/// Plain scalars and simple keys are read back; what stops a plain one.
pub fn laws_of_scalars()
    // What an emitter writes for a value that may be plain is read as that value, as one plain scalar.
    ensures plain_is_read_back { PlainIsReadBack }
    // What an emitter writes for a value between single quotes, with line breaks too, is read as the value.
    ensures single_lines_are_read_back { SingleLinesAreReadBack }
    // Bytes that stop a plain scalar begin with a gap, after which a plain scalar ends.
    ensures stops_end_plain { StopsEndPlain }
    // A text that goes on with what is written for a plain value, and then with bytes that stop it, has that scalar there.
    ensures plain_goes_on { PlainGoesOn }
    // Whether bytes stop a plain scalar, after lines and spaces.
    ensures lines_lead_to_columns { StopsBehindLines }
    // What is written for a simple key ends no line, and has at most 530 bytes.
    ensures simple_keys_are_near { SimpleKeysAreNear }
    // Wherever a text has it, its end is on the line of each of its places, and near them.
    ensures near_is_fresh { NearIsFresh }
    // What stops a plain scalar: the end, closers and commas in brackets, `:` before white, document marks, and what is left of
    // the level.
    ensures what_stops_plain { WhatStopsPlain }
    // A character that is printable, no space and no break stops a plain scalar left of the level.
    ensures characters_are_solid { CharactersAreSolid }
    // A scalar is laid out plain, single quoted or as a block only where that is allowed.
    ensures styles_are_allowed { StylesAreAllowed }
    // A plain scalar that isn't empty is after the space that is due.
    ensures plain_has_a_gap { PlainHasGap }
    // Where a text goes on as a plain value's layout, and then with what stops it, there is one
    // plain scalar with that value.
    ensures plain_stands { PlainStands }
    // Where a text goes on as a single quoted value's layout, there is one single quoted scalar
    // with that value.
    ensures single_stands { SingleStands }
    // Plain and single quoted scalars that are read are words, with their tokens.
    ensures scalars_are_words { ScalarsAreWords }
    // A line of n columns after text stops a plain scalar, if what comes does so at column n.
    ensures lines_stop_plain { LinesStopPlain }
    // Pages indent new lines, and not left of the level.
    ensures pages_indent { PagesIndent }
{}

/// What an emitter writes for a value of one line between single quotes is read as the value, unless a single quote is after.
pub fn single_is_read_back()
    ensures { SingleIsReadBack }
{}
