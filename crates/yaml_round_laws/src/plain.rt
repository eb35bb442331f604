//! Each function's contract is a law.

ghost use Rattle.yaml_round_laws.specs.Plain.{
  CanonicalTextReadsBack,
  CanonicalTextTellsContents,
  PrettyTextIsLost,
  PrettyTextReadsBack,
};

/// The canonical text of an input's content reads back as that content, and no other content of an input has it, whatever is set and
/// however long it is.
pub fn canonical_text_is_the_contents()
    ensures back { CanonicalTextReadsBack }
    ensures only { CanonicalTextTellsContents }
{}

/// The pretty text of an input's events reads back as the input's content exactly where the input doesn't begin with nothing.
pub fn pretty_text_reads_back()
    ensures back { PrettyTextReadsBack }
    ensures lost { PrettyTextIsLost }
{}
