//! Each function's contract is a law of the normal form that people read.

ghost use Rattle.yaml_round_laws.specs.NormalForms.{NormalFormsTellContents, NormalizingIsStill};

/// Two answers of `yaml_normalize` under the same settings are equal exactly where the contents of their inputs are.
pub fn normal_forms_tell_contents()
    ensures { NormalFormsTellContents }
{}

/// To an answer of `yaml_normalize`, given in under the same settings, the only answer is that text again: no byte changes, and no
/// limit is passed.
pub fn normalizing_is_still()
    ensures { NormalizingIsStill }
{}
