//! Each function's contract is a law.

ghost use Rattle.yaml_scan_history.specs.WordsLaws.{AnchorReads, GapReads, BareTagReads, NamedTagReads, VerbatimTagReads, UriReads};
ghost use Rattle.yaml_scan_history.specs.Unbounded.{GapIsOne, GapLeads, RunEndIsOne, RunEnds, UriIs, UriIsOne};
ghost use Rattle.yaml_scan_history.specs.UnboundedScalars.{DigitsAreRead, DigitsStandThere, OneIsNoDigit, PlainIs, PlainIsOne, QuotedIs, QuotedIsOne};
ghost use Rattle.yaml_scan_history.specs.UnboundedBlocks.{DeepestIs, DeepestIsOne, LinesAre, LinesAreOne, RunEndsOnce, RunsEnd};

/// Spaces and breaks before a lexeme are one gap, whatever follows it.
pub fn gap_reads()
    ensures { GapReads }
{}

/// A name after `&` or `*` is read, where what follows may end it.
pub fn anchor_reads()
    ensures { AnchorReads }
{}

/// The characters and escapes of a URI spell its bytes.
pub fn uri_reads()
    ensures { UriReads }
{}

/// A tag is read as its handle and suffix, where what follows may end it.
pub fn tag_reads()
    ensures bare { BareTagReads }
    ensures named { NamedTagReads }
    ensures verbatim { VerbatimTagReads }
{}

/// The end of a run, the gap and the URI at a place are those of relations that know no bound on steps, and the only ones.
pub fn gaps_and_uris_are_unbounded()
    ensures gap { GapLeads }
    ensures one_gap { GapIsOne }
    ensures uri { UriIs }
    ensures one_uri { UriIsOne }
    ensures run { RunEnds }
    ensures one_run { RunEndIsOne }
{}

/// Quoted and plain scalars are those of relations that know no bound on steps, and of nothing else; the code of an escape is the number
/// that its digits spell, and none where one of its characters is no digit.
pub fn scalars_are_unbounded()
    ensures quoted { QuotedIs }
    ensures one_quoted { QuotedIsOne }
    ensures plain { PlainIs }
    ensures one_plain { PlainIsOne }
    ensures digits { DigitsAreRead }
    ensures spelled { DigitsStandThere }
    ensures no_digit { OneIsNoDigit }
{}

/// The end of a run, the deepest indentation of the next lines and the lines at a place are those of relations that know no bound
/// on steps, and the only ones.
pub fn lines_are_unbounded()
    ensures lines { LinesAre }
    ensures one { LinesAreOne }
    ensures deepest { DeepestIs }
    ensures one_deepest { DeepestIsOne }
    ensures runs { RunsEnd }
    ensures one_run { RunEndsOnce }
{}
