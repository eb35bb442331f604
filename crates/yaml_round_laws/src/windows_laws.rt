//! Each function's contract is a law.

ghost use Rattle.yaml_round_laws.specs.WindowsLaws.{WindowsAreRead, WindowsAreAccepted, RefusedFrontsAreRead, EarlyFaultsAreRead, EndedFaultsAreRead, ReadingsAreFramed};

/// The events of a text that is cut between documents after a front that is accepted are those of the front, without the end, and
/// then those of the rest, without the start, with their places moved; so is the fault that ends the rest, if one does.
pub fn windows_are_read()
    ensures { WindowsAreRead }
{}

/// Such a text is accepted where both parts are.
pub fn windows_are_accepted()
    ensures { WindowsAreAccepted }
{}

/// Where the front is refused, but not by the scanner, such a text is refused so, after the same events.
pub fn refused_fronts_are_read()
    ensures { RefusedFrontsAreRead }
{}

/// Where the front is refused before its end, by whomever, so is the whole, after the same events.
pub fn early_faults_are_read()
    ensures { EarlyFaultsAreRead }
{}

/// So is the whole where a front that ends in a line `...` is refused before that line.
pub fn ended_faults_are_read()
    ensures { EndedFaultsAreRead }
{}

/// The events of a text begin with the stream's start; where it is accepted they end with the stream's end.
pub fn readings_are_framed()
    ensures { ReadingsAreFramed }
{}
