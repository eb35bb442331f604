//! What a token is.

ghost use Rattle.std.specs.Prelude.{◌≡◌};
ghost use Rattle.yaml_scan_model.specs.Kinds.{is_fault};

/// What a token is. `Failed` is where the tokens end by a fault, `Nothing` after their end, and `BadTag` and `BadPrefix` for
/// a tag and a directive's prefix that aren't UTF-8.
#[derive(Clone, Copy, PartialEq, Eq)]
pub enum Kind {
    Failed,
    BadTag,
    BadPrefix,
    Nothing,
    StreamStart,
    StreamEnd,
    VersionDirective,
    TagDirective,
    DocumentStart,
    DocumentEnd,
    BlockSequenceStart,
    BlockMappingStart,
    BlockEnd,
    FlowSequenceStart,
    FlowSequenceEnd,
    FlowMappingStart,
    FlowMappingEnd,
    BlockEntry,
    FlowEntry,
    Key,
    Value,
    Alias,
    Anchor,
    Tag,
    Scalar,
}

impl Kind {
    /// Whether the tokens that a parser takes end before it by a fault.
    pub fn is_fault(self) -> bool
        ensures { result ≡ is_fault self }
    {
        matches!(self, Kind::Failed | Kind::BadTag | Kind::BadPrefix)
    }
}
