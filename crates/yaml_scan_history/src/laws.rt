//! Laws of the definitions.

ghost use Rattle.yaml_scan_history.specs.Laws.{SettledStays};
ghost use Rattle.yaml_scan_history.specs.Roles.{KindsHaveRoles};
ghost use Rattle.yaml_scan_history.specs.Rules.{NamesAreTold, TagsAreTold, DirectivesAreTold, QuotesAreTold, PlainsAreTold, BlocksAreTold, PlacesAreTold};

/// What is before the earliest open candidate never changes, whatever follows, in a text whose lexemes are after
/// one another.
pub fn settled_stays()
    ensures { SettledStays }
{}

/// What a lexeme's kind decides of keys, brackets and levels is what its role decides: each kind has one of ten.
pub fn kinds_have_roles()
    ensures { KindsHaveRoles }
{}

/// What a fault of the scanner says, rule by rule: what is there, and the fault's words and places.
pub fn faults_are_told()
    ensures names { NamesAreTold }
    ensures tags { TagsAreTold }
    ensures directives { DirectivesAreTold }
    ensures quotes { QuotesAreTold }
    ensures plains { PlainsAreTold }
    ensures blocks { BlocksAreTold }
    ensures places { PlacesAreTold }
{}
