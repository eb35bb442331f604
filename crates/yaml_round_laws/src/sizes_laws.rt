//! Each function's contract is a law.

ghost use Rattle.yaml_round_laws.specs.SizesLaws.{
  CanonicalTextsAreBounded,
  CanonicalTextsAreShort,
  ContentsAreBounded,
  DeepInputsAreLong,
  DepthsTakeBytes,
  LayoutsAreShort,
  ShortInputsKeepColumns,
};

/// A node at depth d of what an input says takes one and a half bytes for each level.
pub fn depths_take_bytes()
    ensures { DepthsTakeBytes }
{}

/// Where a node is too deep for an indent, the input is so long.
pub fn deep_inputs_are_long()
    ensures { DeepInputsAreLong }
{}

/// Under the default indent no input of at most 1,610,612,732 bytes passes the columns in canonical form.
pub fn short_inputs_keep_columns()
    ensures { ShortInputsKeepColumns }
{}

/// The length of a content's canonical text is bounded by its nodes, lines and texts.
pub fn canonical_texts_are_bounded()
    ensures { CanonicalTextsAreBounded }
{}

/// That bound of an input's content is itself bounded by the input's length: twice the indent times
/// its square, eight bytes more.
pub fn contents_are_bounded()
    ensures { ContentsAreBounded }
{}

/// So canonical text of what an input says has at most as many bytes, in UTF-16 twice as many.
pub fn canonical_texts_are_short()
    ensures { CanonicalTextsAreShort }
{}

/// And so has what is laid out for its events in either form, pretty or canonical, whatever their styles are.
pub fn layouts_are_short()
    ensures { LayoutsAreShort }
{}
