//! Each function's contract is a law.

ghost use Rattle.yaml_round_laws.specs.Sizes.{
  LimitsOfContentSuffice,
  NormalFormsFit,
  ReformatsFit,
  ReloadsFitDocuments,
};

/// Where the limit is at least the bound of the content, canonical form of an accepted input isn't
/// refused for its length.
pub fn limits_of_content_suffice()
    ensures { LimitsOfContentSuffice }
{}

/// Where it is at least the bound of the input's length, `yaml_reformat` refuses no accepted input
/// for the answer's length, in neither form.
pub fn reformats_fit()
    ensures { ReformatsFit }
{}

/// Nor does `yaml_normalize`.
pub fn normal_forms_fit()
    ensures { NormalFormsFit }
{}

/// Where the limit is at least the bound of the documents that an input loads, `yaml_reload`
/// doesn't refuse it for its answer's length.
pub fn reloads_fit_documents()
    ensures { ReloadsFitDocuments }
{}
