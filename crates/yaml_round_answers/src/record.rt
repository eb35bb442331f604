//! Events as records over one block of bytes, and how a text is written.

ghost use Rattle.std.specs.Prelude.{◌≡◌, option_map};
ghost use Rattle.yaml_round_answers.specs.Records.{mark_told, part_at};

use yaml_parse::yaml_mark_t;

/// A place in a text.
#[repr(C)]
#[derive(Clone, Copy, Drop, Default)]
pub struct yaml_c_mark {
    pub index: u64,
    pub line: u64,
    pub column: u64,
    /// How many characters are before it, where they are counted.
    pub character: u64,
}

/// A part of a list: `len` items from `at` on.
#[repr(C)]
#[derive(Clone, Copy, Drop, Default)]
pub struct yaml_c_span {
    pub at: u64,
    pub len: u64,
}

/// A `%TAG` directive, by spans of the block of bytes.
#[repr(C)]
#[derive(Clone, Copy, Drop)]
pub struct yaml_c_directive {
    pub handle: yaml_c_span,
    pub prefix: yaml_c_span,
}

/// An event. `kind`, `style` and `encoding` have libyaml's numbers; flags are off at 0 and on at every other number. What
/// its kind doesn't have counts for nothing.
#[repr(C)]
#[derive(Clone, Copy, Drop, Default)]
pub struct yaml_c_event {
    pub kind: i32,
    pub style: i32,
    pub encoding: i32,
    /// Of a scalar: the tag may be left out in plain style.
    pub implicit: i32,
    /// Of a scalar: the tag may be left out in every other style.
    pub quoted_implicit: i32,
    pub has_anchor: i32,
    /// 2 where there is none, since the input's was `!`, which is left out of scalars.
    pub has_tag: i32,
    pub has_version: i32,
    pub major: i32,
    pub minor: i32,
    /// Of the list of directives.
    pub directives: yaml_c_span,
    /// Of the block of bytes, as the two below. An alias has it too, without a flag.
    pub anchor: yaml_c_span,
    pub tag: yaml_c_span,
    pub value: yaml_c_span,
    pub start: yaml_c_mark,
    pub end: yaml_c_mark,
}

/// How a text is written. The flags are off at 0 and on at every other number; `encoding` and `line_break` have libyaml's
/// numbers.
#[repr(C)]
#[derive(Clone, Copy, Drop)]
pub struct yaml_c_settings {
    pub encoding: i32,
    pub canonical: i32,
    pub indent: i32,
    pub width: i32,
    pub unicode: i32,
    pub line_break: i32,
    pub limit: u64,
}

const _: () = prove!(size_of::<yaml_c_mark>() == 32);

const _: () = prove!(size_of::<yaml_c_settings>() == 32);

const _: () = prove!(size_of::<yaml_c_span>() == 16);

const _: () = prove!(size_of::<yaml_c_directive>() == 32);

const _: () = prove!(size_of::<yaml_c_event>() == 168);

/// The part of a list that a span names, where it lies within it.
#[tactic(auto, unfolding(crate::specs::Records::part_at))]
pub fn part_at<X>(list: &[X], span: yaml_c_span) -> Option<&[X]>
    ensures { option_map (λ t. t.now) result ≡ part_at list.now span }
{
    list.get(span.at as usize..)?.get(..span.len as usize)
}

/// A mark as C reads it, before which no character is counted yet.
pub fn mark_told(mark: yaml_mark_t) -> yaml_c_mark
    ensures { result ≡ mark_told mark }
{
    yaml_c_mark {
        index: mark.index,
        line: mark.line,
        column: mark.column,
        character: 0,
    }
}
