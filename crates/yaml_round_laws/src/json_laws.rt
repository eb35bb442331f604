//! Each function's contract is a law.

ghost use Rattle.yaml_round_laws.specs.JsonLaws.{JsonIsRead};

/// Every JSON text in UTF-8 without the exceptions is accepted, its content is its value, and it is shaped as JSON: strings are
/// quoted scalars with their characters, literals and numbers plain scalars with their spelling, arrays and objects collections in
/// brackets, in order, and equal keys stay.
pub fn json_is_read()
    ensures { JsonIsRead }
{}
