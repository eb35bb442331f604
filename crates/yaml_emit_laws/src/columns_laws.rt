//! Each clause is a law.

ghost use Rattle.yaml_emit_laws.specs.ColumnsLaws.{ColumnsAreByDepth, SizesAreByContent, EscapesAreShort, EventsTellColumns, BlocksForgetColumns, ValuesStandByKeys};
ghost use Rattle.yaml_emit_laws.specs.ColumnsRows.{RowsHold};

/// Columns and sizes of texts that are laid out.
pub fn laws_of_columns()
    // In canonical form, laying out exceeds the columns exactly where a node that is no alias is too deep for the indent.
    ensures columns_are_by_depth { ColumnsAreByDepth }
    // That depends on the events: documents with the same ones are alike in it.
    ensures events_tell_columns { EventsTellColumns }
    // Trees by hand, one on each side of the limit for each kind of node.
    ensures rows_of_columns_hold { RowsHold }
    // Within block collections what is to come is laid out the same wherever the line begins.
    ensures blocks_forget_columns { BlocksForgetColumns }
    // A block sequence's indentation as a value depends on the mapping's, its key and its properties.
    ensures values_stand_by_keys { ValuesStandByKeys }
    // In either form the length of a text is bounded by its nodes, lines and texts.
    ensures sizes_are_by_content { SizesAreByContent }
    // A character in double quotes, spaces aside, takes at most 4, 6 or 10 characters of ASCII.
    ensures escapes_are_short { EscapesAreShort }
{}
