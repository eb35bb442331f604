//! Events whose texts are borrowed.

ghost use Rattle.std.specs.Prelude.{◌≡◌, ◌↔◌, IfOk, IsTrue};
ghost use Rattle.yaml_parse_model.specs.Events.{body_of, borrowed_body, start_or_no};
ghost use Rattle.yaml_parse_model.specs.Constructors.{HasUtf8};

use crate::event::yaml_event_body_t;
use crate::text::{are_utf8, copy_directives, copy_text_option, is_utf8_option};
use simdutf8::is_utf8;
use std::alloc::{AllocError, Global};
use yaml_scan_model::{
    yaml_encoding_t, yaml_mapping_style_t, yaml_scalar_style_t, yaml_sequence_style_t,
    yaml_tag_directive_t, yaml_version_directive_t,
};

/// What an event is, its texts borrowed. Variants and fields are those of `yaml_event_body_t`.
#[derive(Clone, Copy)]
pub enum EventRef<'e> {
    No,
    StreamStart {
        encoding: yaml_encoding_t,
    },
    StreamEnd,
    DocumentStart {
        version_directive: Option<yaml_version_directive_t>,
        tag_directives: &'e [yaml_tag_directive_t],
        implicit: bool,
    },
    DocumentEnd {
        implicit: bool,
    },
    Alias {
        anchor: &'e [u8],
    },
    Scalar {
        anchor: Option<&'e [u8]>,
        tag: Option<&'e [u8]>,
        value: &'e [u8],
        plain_implicit: bool,
        quoted_implicit: bool,
        style: yaml_scalar_style_t,
    },
    SequenceStart {
        anchor: Option<&'e [u8]>,
        tag: Option<&'e [u8]>,
        implicit: bool,
        style: yaml_sequence_style_t,
    },
    SequenceEnd,
    MappingStart {
        anchor: Option<&'e [u8]>,
        tag: Option<&'e [u8]>,
        implicit: bool,
        style: yaml_mapping_style_t,
    },
    MappingEnd,
}

impl yaml_event_body_t {
    /// The event's body, borrowed.
    // Inlined: an emitter asks for the kind alone of most events that it holds, so none is built.
    #[inline(always)]
    pub fn borrowed(&self) -> EventRef<'_>
        ensures { borrowed_body result ≡ body_of self.now }
    {
        match self {
            yaml_event_body_t::No => EventRef::No,
            yaml_event_body_t::StreamStart { encoding } => EventRef::StreamStart {
                encoding: *encoding,
            },
            yaml_event_body_t::StreamEnd => EventRef::StreamEnd,
            yaml_event_body_t::DocumentStart { .. } => self.borrowed_start(),
            yaml_event_body_t::DocumentEnd { implicit } => EventRef::DocumentEnd {
                implicit: *implicit,
            },
            yaml_event_body_t::Alias { anchor } => EventRef::Alias {
                anchor: anchor.as_slice(),
            },
            yaml_event_body_t::Scalar {
                anchor,
                tag,
                value,
                plain_implicit,
                quoted_implicit,
                style,
            } => EventRef::Scalar {
                anchor: anchor.as_deref(),
                tag: tag.as_deref(),
                value: value.as_slice(),
                plain_implicit: *plain_implicit,
                quoted_implicit: *quoted_implicit,
                style: *style,
            },
            yaml_event_body_t::SequenceStart { .. } => self.borrowed_start(),
            yaml_event_body_t::SequenceEnd => EventRef::SequenceEnd,
            yaml_event_body_t::MappingStart { .. } => self.borrowed_start(),
            yaml_event_body_t::MappingEnd => EventRef::MappingEnd,
        }
    }

    // The body of a document's or a collection's start, or else the empty event's.
    // Inlined: a part of `borrowed`.
    #[inline(always)]
    fn borrowed_start(&self) -> EventRef<'_>
        ensures { borrowed_body result ≡ start_or_no (body_of self.now) }
    {
        match self {
            yaml_event_body_t::DocumentStart {
                version_directive,
                tag_directives,
                implicit,
            } => EventRef::DocumentStart {
                version_directive: *version_directive,
                tag_directives: tag_directives.as_slice(),
                implicit: *implicit,
            },
            yaml_event_body_t::SequenceStart {
                anchor,
                tag,
                implicit,
                style,
            } => EventRef::SequenceStart {
                anchor: anchor.as_deref(),
                tag: tag.as_deref(),
                implicit: *implicit,
                style: *style,
            },
            yaml_event_body_t::MappingStart {
                anchor,
                tag,
                implicit,
                style,
            } => EventRef::MappingStart {
                anchor: anchor.as_deref(),
                tag: tag.as_deref(),
                implicit: *implicit,
                style: *style,
            },
            _ => EventRef::No,
        }
    }
}

impl<'e> EventRef<'e> {
    /// Whether all its texts are UTF-8.
    pub fn is_utf8(self) -> bool
        ensures { IsTrue result ↔ HasUtf8 (borrowed_body self.entry) }
    {
        match self {
            EventRef::DocumentStart { tag_directives, .. } => are_utf8(tag_directives),
            EventRef::Alias { anchor } => is_utf8(anchor),
            EventRef::Scalar {
                anchor,
                tag,
                value,
                ..
            } => is_utf8_option(anchor) && is_utf8_option(tag) && is_utf8(value),
            EventRef::SequenceStart { anchor, tag, .. }
            | EventRef::MappingStart { anchor, tag, .. } => is_utf8_option(anchor)
                && is_utf8_option(tag),
            _ => true,
        }
    }

    /// A copy with texts of its own. The error is out of memory.
    pub fn copied(self, alloc: Global) -> Result<yaml_event_body_t, AllocError>
        ensures { IfOk result (λ b. body_of b ≡ borrowed_body self.entry) }
    {
        match self {
            EventRef::No => Ok(yaml_event_body_t::No),
            EventRef::StreamStart { encoding } => Ok(yaml_event_body_t::StreamStart { encoding }),
            EventRef::StreamEnd => Ok(yaml_event_body_t::StreamEnd),
            EventRef::DocumentStart { .. } => self.copied_start(alloc),
            EventRef::DocumentEnd { implicit } => Ok(yaml_event_body_t::DocumentEnd { implicit }),
            EventRef::Alias { anchor } => Ok(yaml_event_body_t::Alias {
                anchor: Vec::from_slice(alloc, anchor)?,
            }),
            EventRef::Scalar {
                anchor,
                tag,
                value,
                plain_implicit,
                quoted_implicit,
                style,
            } => Ok(yaml_event_body_t::Scalar {
                anchor: copy_text_option(alloc, anchor)?,
                tag: copy_text_option(alloc, tag)?,
                value: Vec::from_slice(alloc, value)?,
                plain_implicit,
                quoted_implicit,
                style,
            }),
            EventRef::SequenceStart { .. } => self.copied_start(alloc),
            EventRef::SequenceEnd => Ok(yaml_event_body_t::SequenceEnd),
            EventRef::MappingStart { .. } => self.copied_start(alloc),
            EventRef::MappingEnd => Ok(yaml_event_body_t::MappingEnd),
        }
    }

    // A copy of a document's or a collection's start, or else the empty event.
    fn copied_start(self, alloc: Global) -> Result<yaml_event_body_t, AllocError>
        ensures { IfOk result (λ b. body_of b ≡ start_or_no (borrowed_body self.entry)) }
    {
        match self {
            EventRef::DocumentStart {
                version_directive,
                tag_directives,
                implicit,
            } => Ok(yaml_event_body_t::DocumentStart {
                version_directive,
                tag_directives: copy_directives(alloc, tag_directives)?,
                implicit,
            }),
            EventRef::SequenceStart {
                anchor,
                tag,
                implicit,
                style,
            } => Ok(yaml_event_body_t::SequenceStart {
                anchor: copy_text_option(alloc, anchor)?,
                tag: copy_text_option(alloc, tag)?,
                implicit,
                style,
            }),
            EventRef::MappingStart {
                anchor,
                tag,
                implicit,
                style,
            } => Ok(yaml_event_body_t::MappingStart {
                anchor: copy_text_option(alloc, anchor)?,
                tag: copy_text_option(alloc, tag)?,
                implicit,
                style,
            }),
            _ => Ok(yaml_event_body_t::No),
        }
    }
}
