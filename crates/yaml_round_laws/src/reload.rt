//! Each function's contract is a law.

ghost use Rattle.yaml_round_laws.specs.Loads.{ReloadsAreNormalOfLoads, ReloadsAreOfLoads};
ghost use Rattle.yaml_round_laws.specs.Reloads.{
  AnswersAndReloadsAgree,
  NamesLeaveReloads,
  ReloadsTellDocuments,
};

/// Two answers of `yaml_reload` under the same settings are equal exactly where the documents of their inputs agree.
pub fn reloads_tell_documents()
    ensures { ReloadsTellDocuments }
{}

/// What `yaml_reformat` and `yaml_reload` answer to one input, under any settings, loads documents that agree.
pub fn answers_and_reloads_agree()
    ensures { AnswersAndReloadsAgree }
{}

/// To inputs with one content except the names of each document's anchors, no two names becoming one, `yaml_reload` answers one
/// text.
pub fn names_leave_reloads()
    ensures { NamesLeaveReloads }
{}

/// What `yaml_reload` answers, which its contract says of the input's plain loading, is said of its loads: the documents that they give,
/// laid out; or the fault that ends them; or, where none does, a limit that the layout passes.
pub fn reloads_are_of_loads()
    ensures { ReloadsAreOfLoads }
{}

/// And what it answers is a normal form of what events load: documents that a source loads before a fault, and whose text it is,
/// agree with the input's too.
pub fn reloads_are_normal_of_loads()
    ensures { ReloadsAreNormalOfLoads }
{}
