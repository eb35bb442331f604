//! Why a list of tokens can't be parsed, and the texts that report it.

ghost use Rattle.std.specs.Prelude.{◌≡◌, option_map};
ghost use Rattle.yaml_parse_model.specs.scan_types.Faults.{fault_of};
ghost use Rattle.yaml_parse_grammar.specs.Problems.{problem_text_of, context_text_of, context_place, parser_fault};

use yaml_parse_model::{ZERO_MARK, yaml_error_type_t, yaml_fault_t, yaml_mark_t, yaml_origin_t};

/// What is wrong, and in what.
#[derive(Clone, Copy)]
pub enum ParseProblem {
    NoStreamStart,
    NoDocumentStart,
    /// In a block sequence.
    NoDash,
    /// In a block mapping.
    NoKey,
    /// In a flow sequence.
    NoSequenceEnd,
    /// In a flow mapping.
    NoMappingEnd,
    NoBlockNode,
    NoFlowNode,
    DuplicateVersion,
    IncompatibleVersion,
    DuplicateHandle,
    UndefinedHandle,
}

/// A problem, where it is, and where what was being parsed begins.
#[derive(Clone, Copy)]
pub struct ParseFault {
    pub problem: ParseProblem,
    pub problem_mark: yaml_mark_t,
    /// Not set where the problem has no context.
    pub context_mark: yaml_mark_t,
}

impl ParseProblem {
    /// The problem in libyaml's words.
    #[tactic(auto, unfolding(crate::specs::Problems::problem_text_of))]
    pub fn text(self) -> &'static str
        ensures { result.now ≡ problem_text_of self }
    {
        match self {
            ParseProblem::NoStreamStart => "did not find expected <stream-start>",
            ParseProblem::NoDocumentStart => "did not find expected <document start>",
            ParseProblem::NoDash => "did not find expected '-' indicator",
            ParseProblem::NoKey => "did not find expected key",
            ParseProblem::NoSequenceEnd => "did not find expected ',' or ']'",
            ParseProblem::NoMappingEnd => "did not find expected ',' or '}'",
            ParseProblem::NoBlockNode => "did not find expected node content",
            ParseProblem::NoFlowNode => "did not find expected node content",
            ParseProblem::DuplicateVersion => "found duplicate %YAML directive",
            ParseProblem::IncompatibleVersion => "found incompatible YAML document",
            ParseProblem::DuplicateHandle => "found duplicate %TAG directive",
            ParseProblem::UndefinedHandle => "found undefined tag handle",
        }
    }

    /// The context in libyaml's words, where there is one.
    #[tactic(auto, unfolding(crate::specs::Problems::context_text_of))]
    pub fn context(self) -> Option<&'static str>
        ensures { option_map (λ t. t.now) result ≡ context_text_of self }
    {
        match self {
            ParseProblem::NoDash => Some("while parsing a block collection"),
            ParseProblem::NoKey => Some("while parsing a block mapping"),
            ParseProblem::NoSequenceEnd => Some("while parsing a flow sequence"),
            ParseProblem::NoMappingEnd => Some("while parsing a flow mapping"),
            ParseProblem::NoBlockNode => Some("while parsing a block node"),
            ParseProblem::NoFlowNode => Some("while parsing a flow node"),
            ParseProblem::UndefinedHandle => Some("while parsing a node"),
            _ => None,
        }
    }

    /// Where the context begins: zero where there is none.
    #[tactic(auto, unfolding(crate::specs::Problems::context_place, crate::specs::Problems::context_text_of))]
    pub fn place(self, context_mark: yaml_mark_t) -> yaml_mark_t
        ensures { result ≡ context_place self context_mark }
    {
        match self.context() {
            Some(_) => context_mark,
            None => ZERO_MARK,
        }
    }
}

impl ParseFault {
    /// The fault as the port's calls answer it.
    pub fn located(self) -> yaml_fault_t
        ensures { fault_of result ≡ parser_fault self.problem self.problem_mark self.context_mark }
    {
        yaml_fault_t {
            kind: yaml_error_type_t::YAML_PARSER_ERROR,
            problem: self.problem.text(),
            offset: 0,
            value: 0,
            problem_mark: self.problem_mark,
            context: self.problem.context(),
            context_mark: self.problem.place(self.context_mark),
            origin: yaml_origin_t::Parser,
        }
    }
}
