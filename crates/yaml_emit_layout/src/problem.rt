//! Why an event is refused.

ghost use Rattle.std.specs.Prelude.{◌≡◌};
ghost use Rattle.yaml_emit_layout.specs.Grammar.{problem_bytes};

/// What is wrong with an event.
#[derive(Clone, Copy, PartialEq, Eq, Debug)]
pub enum Problem {
    AnchorEmpty,
    AnchorCharacters,
    AliasEmpty,
    AliasCharacters,
    TagEmpty,
    ExpectedStreamStart,
    ExpectedDocumentStartOrStreamEnd,
    ExpectedNode,
    ExpectedDocumentEnd,
    ExpectedNothing,
    Version,
    HandleEmpty,
    HandleStart,
    HandleEnd,
    HandleCharacters,
    PrefixEmpty,
    HandleTwice,
    NoFlags,
}

/// The text of a problem.
pub fn problem_text(problem: Problem) -> &'static str
    ensures { result.now ≡ problem_bytes problem }
{
    match problem {
        Problem::AnchorEmpty => "anchor value must not be empty",
        Problem::AnchorCharacters => "anchor value must contain alphanumerical characters only",
        Problem::AliasEmpty => "alias value must not be empty",
        Problem::AliasCharacters => "alias value must contain alphanumerical characters only",
        Problem::TagEmpty => "tag value must not be empty",
        Problem::ExpectedStreamStart => "expected STREAM-START",
        Problem::ExpectedDocumentStartOrStreamEnd => "expected DOCUMENT-START or STREAM-END",
        Problem::ExpectedNode => "expected SCALAR, SEQUENCE-START, MAPPING-START, or ALIAS",
        Problem::ExpectedDocumentEnd => "expected DOCUMENT-END",
        Problem::ExpectedNothing => "expected nothing after STREAM-END",
        Problem::Version => "incompatible %YAML directive",
        Problem::HandleEmpty => "tag handle must not be empty",
        Problem::HandleStart => "tag handle must start with '!'",
        Problem::HandleEnd => "tag handle must end with '!'",
        Problem::HandleCharacters => "tag handle must contain alphanumerical characters only",
        Problem::PrefixEmpty => "tag prefix must not be empty",
        Problem::HandleTwice => "duplicate %TAG directive",
        Problem::NoFlags => "neither tag nor implicit flags are specified",
    }
}
