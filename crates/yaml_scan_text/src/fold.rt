//! White between texts, and what it reads as.

ghost use Rattle.std.specs.Prelude.{◌≡◌, ◌<◌, ◌≤◌, ◌+◌, ◌++◌, length, slice_range, OnOk};
ghost use Rattle.yaml_scan_types.specs.Marks.{break_width};
ghost use Rattle.yaml_scan_model.specs.Breaks.{is_document_indicator};
ghost use Rattle.yaml_scan_model.specs.Runs.{past_blanks};
ghost use Rattle.yaml_scan_text.specs.Folds as spec;
ghost use Rattle.yaml_scan_text.specs.Lines.{InHead};
ghost use Rattle.yaml_scan_text.specs.Refused.{Keeps};

use crate::text::{break_width, feed, is_document_mark, skip_blanks};
use std::alloc::AllocError;

/// A place after breaks and blanks, and where its line starts.
#[derive(Clone, Copy, Drop)]
pub(crate) struct Head {
    pub at: usize,
    pub line: usize,
}

/// Appends what the blanks and breaks read as that are between two places, the first break among them: blanks go, a line feed
/// becomes a space, or goes where more breaks follow; others stay.
pub(crate) fn fold(out: &mut Vec<u8>, text: &[u8], from: usize, to: usize) -> Result<(), AllocError>
    requires broke { 0 < break_width text.now (past_blanks text.now from) }
    requires inside { to ≤ length text.now }
    ensures value { OnOk result (out.new.items ≡ out.old.items ++ spec.fold_of text.now from to) }
    ensures kept { Keeps out.old.items out.new.items }
{
    let first = skip_blanks(text, from);
    let width = break_width(text, first);
    let kept = out.len();
    // LS and PS are the breaks of three bytes.
    if width == 3 {
        out.extend_from_slice(feed(text, first))?;
    }
    push_breaks(out, text, first + width, to)?;
    if out.len() == kept {
        out.push(b' ')?;
    }
    Ok(())
}

/// Appends what the breaks between two places read as, between which there is nothing but blanks
/// and breaks.
pub(crate) fn push_breaks(
    out: &mut Vec<u8>,
    text: &[u8],
    from: usize,
    to: usize,
) -> Result<(), AllocError>
    requires { to ≤ length text.now }
    ensures value { OnOk result (out.new.items ≡ out.old.items ++ spec.feeds text.now from to) }
    ensures kept { Keeps out.old.items out.new.items }
{
    let mut at = skip_blanks(text, from);
    'breaks: while at < to {
        out.extend_from_slice(feed(text, at))?;
        at = skip_blanks(text, at + break_width(text, at).max(1));
    }
    Ok(())
}

/// Appends a part of the text, and what the white after it reads as, up to that place.
pub(crate) fn take_line(
    arena: &mut Vec<u8>,
    text: &[u8],
    from: usize,
    end: usize,
    to: usize,
) -> Result<(), AllocError>
    requires order { from ≤ end }
    requires part { end ≤ length text.now }
    requires broke { 0 < break_width text.now (past_blanks text.now end) }
    requires inside { to ≤ length text.now }
    ensures value { OnOk result (arena.new.items
        ≡ arena.old.items ++ (slice_range text.now from end ++ spec.fold_of text.now end to)) }
    ensures kept { Keeps arena.old.items arena.new.items }
{
    arena.extend_from_slice(&text[from..end])?;
    fold(arena, text, end, to)
}

/// Whether a document's mark is after such white.
// In line: mostly a comparison.
#[tactic(auto, using(crate::proofs::HeadLemmas::mark_first, crate::proofs::HeadLemmas::mark_other))]
#[inline(always)]
pub(crate) fn is_marked(text: &[u8], head: Head) -> bool
    requires { InHead text.now head.line head.at }
    ensures { result ≡ is_document_indicator text.now head.at }
{
    head.at == head.line && is_document_mark(text, head.at)
}
