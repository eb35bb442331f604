//! Each function's contract is a law.

ghost use Rattle.yaml_round_laws.specs.Limits.{
  CanonicalAnswersKeepColumns,
  CanonicalFormPassesColumns,
  ReformatsNameColumns,
  ReloadsKeepColumns,
  ReloadsNameColumns,
};

/// Of an accepted input, canonical form exceeds the columns exactly where a node of its content that is no alias is too deep
/// for the indent.
pub fn canonical_form_passes_columns()
    ensures { CanonicalFormPassesColumns }
{}

/// With canonical form asked for, `yaml_reformat` may refuse an accepted input for columns exactly there.
pub fn reformats_name_columns()
    ensures { ReformatsNameColumns }
{}

/// It answers canonical text only where none does, whether that form was asked for or not.
pub fn canonical_answers_keep_columns()
    ensures { CanonicalAnswersKeepColumns }
{}

/// `yaml_reload` may refuse an input whose documents load for columns exactly where a node of their dumps that is no alias is
/// too deep for the indent.
pub fn reloads_name_columns()
    ensures { ReloadsNameColumns }
{}

/// It answers a text only where none does.
pub fn reloads_keep_columns()
    ensures { ReloadsKeepColumns }
{}
