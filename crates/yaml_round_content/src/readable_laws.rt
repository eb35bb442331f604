//! Each clause is a law.

ghost use Rattle.yaml_round_content.specs.ReadableLaws.{
  ReadableIsRead,
  ReadableReadsBack,
  ReadableTellsContents,
  ReadableTellsInputs,
};
ghost use Rattle.yaml_round_content.specs.Restyled.{ReadableIsLaidOut};

/// The normal form that people read has its content, and no other content has that text.
pub fn laws_of_readable_form()
    // The text that people read is accepted, and says its content: under all settings of pretty form.
    ensures readable_reads_back { ReadableReadsBack }
    // Contents with one such text are one.
    ensures readable_tells_contents { ReadableTellsContents }
    // That text of what an accepted input says is accepted, with its encoding detected, and says exactly that.
    ensures readable_is_read { ReadableIsRead }
    // Inputs whose contents have one such text have one content.
    ensures readable_tells_inputs { ReadableTellsInputs }
    // For an input's events, each with the style that the content decides, that text is what is laid out.
    ensures readable_is_laid_out { ReadableIsLaidOut }
{}
