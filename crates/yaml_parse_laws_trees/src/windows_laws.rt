//! Each function's contract is a law.

ghost use Rattle.yaml_parse_laws_trees.specs.WindowsLaws.{WindowsAreParsed, DirectivesAreParsed, RefusedFrontsStay, EndedFrontsStay, RefusedTokensStay, BracketsAreClosed};

/// The events of tokens that go on with a document's start where others end are those of these others, without the stream's end,
/// and then those of what comes after, without the stream's start.
pub fn windows_are_parsed()
    ensures { WindowsAreParsed }
{}

/// So may they go on with a directive, where a document's end is before it.
pub fn directives_are_parsed()
    ensures { DirectivesAreParsed }
{}

/// Tokens that are refused are refused so where such tokens follow.
pub fn refused_fronts_stay()
    ensures { RefusedFrontsStay }
{}

/// Tokens that are refused up to a document's explicit end are refused so whatever follows.
pub fn ended_fronts_stay()
    ensures { EndedFrontsStay }
{}

/// Tokens that a fault ends are refused for it, or so whatever is after them.
pub fn refused_tokens_stay()
    ensures { RefusedTokensStay }
{}

/// Tokens that are accepted leave no bracket open.
pub fn brackets_are_closed()
    ensures { BracketsAreClosed }
{}
