//! Each function's contract is a law.

ghost use Rattle.yaml_round_laws.specs.Partings.{DiffsAgree, DocumentDiffsAgree};

/// `yaml_diff` answers nothing exactly where `yaml_same` answers true, and has one answer, whichever input comes first.
pub fn diffs_agree()
    ensures { DiffsAgree }
{}

/// `yaml_diff_documents` answers nothing in one order where it does in the other, and has one answer, whichever input comes first.
pub fn document_diffs_agree()
    ensures { DocumentDiffsAgree }
{}
