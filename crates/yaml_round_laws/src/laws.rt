//! Each function's contract is a law.

ghost use Rattle.yaml_round_laws.specs.Laws.{
  FormTellsBeginning,
  AnswersReadBack,
  CanonicalAnswersTellContents,
  ComparisonsAgree,
  JsonStaysPretty,
  RewritingIsStill,
  SameContentIsAnEquivalence,
  SettingsDoNotMatter,
};

/// Whatever `yaml_reformat` answers, in either form, is accepted with its encoding detected, and has the input's content.
pub fn answers_read_back()
    ensures { AnswersReadBack }
{}

/// Two answers to one input have the same content, whatever the settings and the forms.
pub fn settings_do_not_matter()
    ensures { SettingsDoNotMatter }
{}

/// Two answers in canonical form under the same settings are equal exactly where the contents of their inputs are.
pub fn canonical_answers_tell_contents()
    ensures { CanonicalAnswersTellContents }
{}

/// To an answer in canonical form, given in under the same settings with canonical form asked for, the only answer is that text
/// again: no byte changes, and no limit is passed.
pub fn rewriting_is_still()
    ensures { RewritingIsStill }
{}

/// Where canonical form isn't asked for, an answer of `yaml_reformat` is in canonical form exactly if its input begins with nothing:
/// its first document has no `---` and is a `!` alone. Each other answer is in pretty form, and reads back.
pub fn form_tells_beginning()
    ensures { FormTellsBeginning }
{}

/// Where canonical form isn't asked for, `yaml_reformat` answers an input shaped as JSON in pretty form, and refuses it only for a
/// fault of its own or for the limit that this form passes.
pub fn json_stays_pretty()
    ensures { JsonStaysPretty }
{}

/// Of inputs, to have the same content is an equivalence.
pub fn same_content_is_an_equivalence()
    ensures { SameContentIsAnEquivalence }
{}

/// Two comparisons of the same inputs answer the same, in either order.
pub fn comparisons_agree()
    ensures { ComparisonsAgree }
{}
