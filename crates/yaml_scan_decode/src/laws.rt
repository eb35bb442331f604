//! A law of the faults of bytes.

ghost use Rattle.yaml_scan_decode.specs.Rules.{OffencesAreTold};

/// What a fault of the reader says, rule by rule: what is there, and the fault's words, its byte and its number.
pub fn offences_are_told()
    ensures { OffencesAreTold }
{}
