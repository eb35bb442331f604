//! The kinds of lexemes, and what each does to keys and levels (YAML 1.1, 7.3.3 and 4.2.1).

ghost use Rattle.std.specs.Prelude.{◌≡◌};
ghost use Rattle.yaml_scan_history.specs.Kinds as kinds;

/// What a lexeme is.
#[derive(Clone, Copy)]
pub enum Kind {
    StreamStart,
    StreamEnd,
    /// `%YAML` or `%TAG` with its line.
    Directive,
    DocumentStart,
    DocumentEnd,
    FlowSequenceStart,
    FlowMappingStart,
    FlowSequenceEnd,
    FlowMappingEnd,
    FlowEntry,
    /// `-`
    BlockEntry,
    /// `?`
    KeyMark,
    /// `:`
    ValueMark,
    Alias,
    Anchor,
    Tag,
    Literal,
    Folded,
    SingleQuoted,
    DoubleQuoted,
    Plain,
}

impl Kind {
    /// Whether it is outside all block levels.
    pub fn is_outside(self) -> bool
        ensures { result ≡ kinds.is_outside self }
    {
        match self {
            Kind::StreamEnd | Kind::Directive | Kind::DocumentStart | Kind::DocumentEnd => true,
            _ => false,
        }
    }
}
