//! Each function's contract is a law.

ghost use Rattle.yaml_scan_laws.specs.Laws.{
  GoesForward,
  LexemesStand,
  SettledStays,
  AreFew,
  StepsCount,
  AllEnds,
  LastIsAll,
  StaysAll,
  HistoryGrows,
  HeldIsShort,
  FewAreHeld,
  FewWait,
  OuterIsFirst,
};
ghost use Rattle.yaml_scan_laws.specs.Streams.{StreamStarts, StreamEnds, FaultEndsNone};
ghost use Rattle.yaml_scan_laws.specs.Fronts.{SettledComes, LastComes, EndsCome, FaultComes, EndComes};

/// The order of tokens, marks and fronts.
pub fn laws_of_order()
    // Each lexeme is after the ones before it: places and lines never go back.
    ensures goes_forward { GoesForward }
    // A lexeme's marks are marks of the text. The stream's start and end take no byte, every other lexeme at least one.
    ensures lexemes_stand { LexemesStand }
    // What is before the earliest open candidate never changes, whatever follows.
    ensures settled_stays { SettledStays }
    // A text has at most two lexemes more than bytes.
    ensures are_few { AreFew }
    // While lexemes are read, each step reads one.
    ensures steps_count { StepsCount }
    // No lexeme comes after all of them.
    ensures all_ends { AllEnds }
    // Where no lexeme comes, all are read.
    ensures last_is_all { LastIsAll }
    // Steps after the last one change nothing.
    ensures stays_all { StaysAll }
    // A further step keeps the lexemes of the steps before it.
    ensures history_grows { HistoryGrows }
    // What waits is short: it begins on the line that is reached, at most 1,024 bytes before the place that is reached.
    ensures held_is_short { HeldIsShort }
    // The open candidate outside all brackets is the earliest open one.
    ensures outer_is_first { OuterIsFirst }
{}

/// At most 1,025 lexemes wait for what follows: those from the earliest open candidate on. Where one more is read, at
/// most 1,024 wait for it.
pub fn few_are_held()
    ensures all { FewAreHeld }
    ensures before { FewWait }
{}

/// What comes first of what is to come, where so much of the text is read: a token of the lexeme that is to be taken,
/// or of those that close levels before a candidate, or the fault, or nothing.
pub fn fronts_come()
    ensures settled { SettledComes }
    ensures last { LastComes }
    ensures ends { EndsCome }
    ensures fault { FaultComes }
    ensures nothing { EndComes }
{}

/// The tokens of a text begin with STREAM-START. They end in STREAM-END where no fault comes, and hold it nowhere else.
pub fn stream_is_framed()
    ensures starts { StreamStarts }
    ensures ends { StreamEnds }
    ensures none { FaultEndsNone }
{}
