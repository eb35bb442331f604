//! The names of anchors and aliases.

ghost use Rattle.std.specs.Prelude.{◌≡◌, ◌<◌, ◌||◌, ◌==◌, not, length};
ghost use Rattle.yaml_scan_history.specs.Anchors as anchors;
ghost use Rattle.yaml_scan_text.specs.NamesRead as spec;

use crate::class::alphas;
use crate::refusal::{Wrong, wrong_at};
use crate::text::{byte, is_blank_or_end};
use yaml_scan_model::{Context, Problem};

/// The place after the anchor or alias that starts there: its name is one or more alphas.
pub fn name(text: &[u8], start: usize, context: Context) -> Result<usize, Wrong>
    requires { start < length text.now }
    ensures { spec.ReadsName text.now start result (anchors.anchor_at context text.now start) }
{
    let end = alphas(text, start + 1);
    if !is_name(text, start + 1, end) {
        return Err(wrong_at(Problem::NoAlphanumeric, context, end));
    }
    Ok(end)
}

/// Whether the alphas between two places are some, and a name may end there.
fn is_name(text: &[u8], from: usize, end: usize) -> bool
    ensures { result ≡ not (from == end || not (anchors.may_end_name text.now end)) }
{
    from != end && may_end_name(text, end)
}

/// Whether a blank, a break, the end or one of ``? : , ] } % @ ` `` is there.
#[tactic(auto, unfolding(yaml_scan_history::specs::Anchors::may_end_name))]
fn may_end_name(text: &[u8], at: usize) -> bool
    ensures { result ≡ anchors.may_end_name text.now at }
{
    is_blank_or_end(text, at) || is_name_end(byte(text, at))
}

/// One of ``? : , ] } % @ ` ``.
fn is_name_end(byte: u8) -> bool
    ensures { result ≡ anchors.is_name_end byte }
{
    matches!(byte, b'?' | b':' | b',' | b']' | b'}' | b'%' | b'@' | b'`')
}
