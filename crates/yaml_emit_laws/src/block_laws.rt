//! Each clause is a law.

ghost use Rattle.yaml_emit_laws.specs.BlockLaws.{BlockAtPosition, BlockBeforeLine, BlockIsLaidOut, BlockIsReadBack};
ghost use Rattle.yaml_emit_laws.specs.BlockLexemes.{BlockIsNext};
ghost use Rattle.yaml_emit_laws.specs.BlockPassing.{BlockIsPassed};

/// Literal and folded scalars are read back.
pub fn laws_of_block_scalars()
    // What is written for a value in literal or folded style, where that is allowed, is read as the value, before any text that is
    // left of it.
    ensures block_is_read_back { BlockIsReadBack }
    // So it is with the start of the next line, which is where the scanner goes on.
    ensures block_before_line { BlockBeforeLine }
    // So it is at each position of a layout where one of these styles is chosen.
    ensures block_at_position { BlockAtPosition }
    // It is what the layout of a scalar in these styles writes after the space before it.
    ensures block_is_laid_out { BlockIsLaidOut }
    // After lexemes that leave no key waiting, a block scalar that is there is the next lexeme.
    ensures block_is_next { BlockIsNext }
    // A text that goes on as the layout of a block scalar and of the line after it does is read up to what follows.
    ensures block_is_passed { BlockIsPassed }
{}
