//! A caller's own source of tokens, as the parser takes tokens.

ghost use Rattle.std.specs.Prelude.{◌≡◌, false, None, length};
ghost use Rattle.yaml_scan_model.specs.scan_types.Tokens.{token_of, body_of};
ghost use Rattle.yaml_scan_model.specs.Kinds.{IsOf, is_fault};
ghost use Rattle.yaml_scan_model.specs.Shows.{Shows, left_behind};
ghost use Rattle.yaml_scan_model.specs.Texts.{texts_in};
ghost use Rattle.yaml_scan_model.specs.Utf8.{IsUtf8Next};
ghost use Rattle.yaml_parse_states.specs.Counts.{held_of, unasked_of};
ghost use Rattle.yaml_parse_states.specs.SourceComing.{coming, fault_coming, held_if, left_of, Tells};
ghost use Rattle.yaml_parse_model.specs.Source.{front_of, HasUtf8};

use yaml_parse_model::{ZERO_MARK, yaml_token_source_t};
use yaml_scan_model::{
    Kind, Tokens, yaml_encoding_t, yaml_fault_t, yaml_mark_t, yaml_memory_fault, yaml_origin_t,
    yaml_scalar_style_t, yaml_token_body_t, yaml_token_t,
};

/// A source, the token that it gave last, which is next or was taken, and the fault in place of a further one.
#[derive(Drop)]
pub struct SourceTokens<S: yaml_token_source_t> {
    source: S,
    token: yaml_token_t,
    is_next: bool,
    fault: Option<yaml_fault_t>,
}

impl<S: yaml_token_source_t> SourceTokens<S> {
    /// The tokens of a source, of which none was asked for.
    pub fn new(source: S) -> SourceTokens<S>
        ensures to_come { ⟦<SourceTokens<S> as Tokens>⟧.to_come result ≡ S.to_come source }
        ensures fault { ⟦<SourceTokens<S> as Tokens>⟧.fault_to_come result
            ≡ S.fault_to_come source }
        ensures unasked { unasked_of S.to_come result ≡ length (S.to_come source) }
        ensures held { held_of result ≡ 0 }
        ensures utf8 { IsUtf8Next ⟦<SourceTokens<S> as Tokens>⟧ result }
    {
        SourceTokens {
            source,
            token: yaml_token_t::empty(),
            is_next: false,
            fault: None,
        }
    }

    // The kind of the token that the source gives next.
    fn ask(&mut self) -> Kind
        requires fault { self.old.fault ≡ None }
        requires is_next { self.old.is_next ≡ false }
        ensures shows { Shows result (S.to_come self.old.source) (S.fault_to_come self.old.source)
            (coming self.new.fault self.new.is_next (token_of self.new.token)
            (S.to_come self.new.source))
            (fault_coming self.new.fault (S.fault_to_come self.new.source)) }
        ensures tells { Tells self.new.fault self.new.is_next (is_fault result) }
        ensures unasked { length (left_of self.new.fault (S.to_come self.new.source)) ≡ left_behind
            (coming self.new.fault self.new.is_next (token_of self.new.token)
            (S.to_come self.new.source)) }
        ensures utf8 { HasUtf8 (front_of (coming self.new.fault self.new.is_next
            (token_of self.new.token) (S.to_come self.new.source))).body }
    {
        match self.source.next_token() {
            Ok(token) => {
                self.token = token;
                self.is_next = true;
                kind_of(&self.token.body)
            }
            Err(fault) => {
                self.fault = Some(fault);
                Kind::Failed
            }
        }
    }
}

/// What a token is.
fn kind_of(body: &yaml_token_body_t) -> Kind
    ensures is { IsOf result (body_of body.now) }
    ensures told { is_fault result ≡ false }
{
    match body {
        yaml_token_body_t::No => Kind::Nothing,
        yaml_token_body_t::StreamStart { .. } => Kind::StreamStart,
        yaml_token_body_t::StreamEnd => Kind::StreamEnd,
        yaml_token_body_t::VersionDirective { .. } => Kind::VersionDirective,
        yaml_token_body_t::TagDirective { .. } => Kind::TagDirective,
        yaml_token_body_t::DocumentStart => Kind::DocumentStart,
        yaml_token_body_t::DocumentEnd => Kind::DocumentEnd,
        yaml_token_body_t::BlockSequenceStart => Kind::BlockSequenceStart,
        yaml_token_body_t::BlockMappingStart => Kind::BlockMappingStart,
        yaml_token_body_t::BlockEnd => Kind::BlockEnd,
        yaml_token_body_t::FlowSequenceStart => Kind::FlowSequenceStart,
        yaml_token_body_t::FlowSequenceEnd => Kind::FlowSequenceEnd,
        yaml_token_body_t::FlowMappingStart => Kind::FlowMappingStart,
        yaml_token_body_t::FlowMappingEnd => Kind::FlowMappingEnd,
        yaml_token_body_t::BlockEntry => Kind::BlockEntry,
        yaml_token_body_t::FlowEntry => Kind::FlowEntry,
        yaml_token_body_t::Key => Kind::Key,
        yaml_token_body_t::Value => Kind::Value,
        yaml_token_body_t::Alias { .. } => Kind::Alias,
        yaml_token_body_t::Anchor { .. } => Kind::Anchor,
        yaml_token_body_t::Tag { .. } => Kind::Tag,
        yaml_token_body_t::Scalar { .. } => Kind::Scalar,
    }
}

impl<S: yaml_token_source_t> Tokens for SourceTokens<S> {
    type Place = yaml_mark_t;

    ghost to_come = { λ s. coming s.fault s.is_next (token_of s.token) (S.to_come s.source) };

    ghost fault_to_come = { λ s. fault_coming s.fault (S.fault_to_come s.source) };

    ghost mark_of = { λ s p. p };

    ghost texts = { λ s. texts_in (body_of s.token.body) };

    ghost tells = { λ s b. Tells s.fault s.is_next b };

    ghost unasked = { λ s. length (left_of s.fault (S.to_come s.source)) };

    ghost held = { λ s. held_if s.fault s.is_next };

    fn kind(&mut self) -> Kind {
        match self.fault {
            Some(_) => Kind::Failed,
            None => {
                if self.is_next {
                    kind_of(&self.token.body)
                } else {
                    self.ask()
                }
            }
        }
    }

    fn skip(&mut self, _kind: Kind) {
        self.is_next = false;
    }

    fn start(&self) -> yaml_mark_t {
        self.token.start_mark
    }

    fn end(&self, _kind: Kind) -> yaml_mark_t {
        self.token.end_mark
    }

    fn style(&self) -> yaml_scalar_style_t {
        match &self.token.body {
            yaml_token_body_t::Scalar { style, .. } => *style,
            _ => yaml_scalar_style_t::YAML_ANY_SCALAR_STYLE,
        }
    }

    fn value(&self) -> &[u8] {
        match &self.token.body {
            yaml_token_body_t::Scalar { value, .. } => value.as_slice(),
            yaml_token_body_t::Alias { value } => value.as_slice(),
            yaml_token_body_t::Anchor { value } => value.as_slice(),
            _ => &[],
        }
    }

    fn handle(&self) -> &[u8] {
        match &self.token.body {
            yaml_token_body_t::Tag { handle, .. } => handle.as_slice(),
            yaml_token_body_t::TagDirective { handle, .. } => handle.as_slice(),
            _ => &[],
        }
    }

    fn suffix(&self) -> &[u8] {
        match &self.token.body {
            yaml_token_body_t::Tag { suffix, .. } => suffix.as_slice(),
            yaml_token_body_t::TagDirective { prefix, .. } => prefix.as_slice(),
            _ => &[],
        }
    }

    fn version(&self) -> (i32, i32) {
        match &self.token.body {
            yaml_token_body_t::VersionDirective { major, minor } => (*major, *minor),
            _ => (0, 0),
        }
    }

    fn encoding(&self) -> yaml_encoding_t {
        match &self.token.body {
            yaml_token_body_t::StreamStart { encoding } => *encoding,
            _ => yaml_encoding_t::YAML_ANY_ENCODING,
        }
    }

    fn mark(&mut self, place: yaml_mark_t) -> yaml_mark_t {
        place
    }

    fn origin(&self) -> yaml_mark_t {
        ZERO_MARK
    }

    fn fault(&self) -> yaml_fault_t {
        self.fault
            .unwrap_or(yaml_memory_fault(yaml_origin_t::Scanner))
    }
}
