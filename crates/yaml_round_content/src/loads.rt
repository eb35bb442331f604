//! Each function's contract is a law.

ghost use Rattle.yaml_round_content.specs.DumpsLoads.{AgreeingSayTheSame, LoadsOfContent, LoadsOfRenamed};

/// Events of the same content load documents that agree, and both or neither are refused.
pub fn loads_of_content()
    ensures { LoadsOfContent }
{}

/// What loads of documents that agree are.
pub fn laws_of_agreement()
    // So do events of the same content with each document's anchors under other names, no two names
    // of one document becoming one.
    ensures loads_of_renamed { LoadsOfRenamed }
    // Documents that agree have the same content, as they are dumped.
    ensures agreeing_say_the_same { AgreeingSayTheSame }
{}
