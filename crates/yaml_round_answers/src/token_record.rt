//! Tokens as records.

ghost use Rattle.std.specs.Prelude.{◌≡◌};
ghost use Rattle.yaml_round_answers.specs.TokensListed.{plain};

use crate::record::{yaml_c_mark, yaml_c_span};

/// A token. What its kind doesn't have is 0.
#[repr(C)]
#[derive(Clone, Copy, Drop, Default)]
pub struct yaml_c_token {
    /// What it is, 1 to 21.
    pub kind: i32,
    /// Of a scalar.
    pub style: i32,
    /// Of the stream's start: the one that was found.
    pub encoding: i32,
    /// Of a version directive, as the one below.
    pub major: i32,
    pub minor: i32,
    /// Of a tag directive and of a tag.
    pub handle: yaml_c_span,
    /// A scalar's value, the name of an alias or an anchor, a tag's suffix, a tag directive's prefix.
    pub value: yaml_c_span,
    pub start: yaml_c_mark,
    pub end: yaml_c_mark,
}

const _: () = prove!(size_of::<yaml_c_token>() == 120);

/// A record of that kind between these marks, with nothing else.
pub(crate) fn plain(kind: i32, start: yaml_c_mark, end: yaml_c_mark) -> yaml_c_token
    ensures { result ≡ plain kind start end }
{
    yaml_c_token {
        kind,
        start,
        end,
        ..yaml_c_token::default()
    }
}
