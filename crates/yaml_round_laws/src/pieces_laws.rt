//! Each function's contract is a law.

ghost use Rattle.yaml_round_laws.specs.Calls.{CallsAreWholes};
ghost use Rattle.yaml_round_laws.specs.PiecesLaws.{StandsAreThere, CuttingsAreWholes, CutsAreThere, FrontsAreShown, StandInsStand, BlocksStandByLevels, DocumentsStandByEnds};
ghost use Rattle.yaml_round_laws.specs.Layouts.{StreamsAreLayouts, FrontsAreOfLayouts, AllIsOfLayouts, WrongAddNothing};

/// From each checkpoint each list of events leads to one.
pub fn stands_are_there()
    ensures { StandsAreThere }
{}

/// However a list of events is cut, the texts of its pieces, one after another, are the text of the whole.
pub fn cuttings_are_wholes()
    ensures { CuttingsAreWholes }
{}

/// Each cutting has such texts.
pub fn cuts_are_there()
    ensures { CutsAreThere }
{}

/// What was written for a front of a list is a front of the text of all.
pub fn fronts_are_shown()
    ensures { FrontsAreShown }
{}

/// What follows adds the same after events and after others that lead to a checkpoint that is
/// alike.
pub fn stand_ins_stand()
    ensures { StandInsStand }
{}

/// Within block collections the open ones with their indentations decide what is added.
pub fn blocks_stand_by_levels()
    ensures { BlocksStandByLevels }
{}

/// Before a document it counts how the last one ended, and not whether its breaks are kept.
pub fn documents_stand_by_ends()
    ensures { DocumentsStandByEnds }
{}

/// What is written for events is said by the trees of the streams that they begin: the layout of a whole stream, and fronts of it for
/// its first events; a wrong event and those after it add nothing.
pub fn texts_are_of_layouts()
    ensures streams { StreamsAreLayouts }
    ensures fronts { FrontsAreOfLayouts }
    ensures all { AllIsOfLayouts }
    ensures wrong { WrongAddNothing }
{}

/// The texts of an emitter's calls, each of which goes on where the one before it ended, are the text of the whole.
pub fn calls_are_wholes()
    ensures { CallsAreWholes }
{}
