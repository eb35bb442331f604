//! Records of an input's events in their text: the characters before their marks, and which tags were left out.

ghost use Rattle.std.specs.Prelude.{◌≡◌, map};
ghost use Rattle.yaml_round_answers.specs.Characters.{Counts};
ghost use Rattle.yaml_round_answers.specs.Counted.{mark_counted, leaves_out_tag, event_counted};

use crate::counting::Count;
use crate::record::{yaml_c_event, yaml_c_mark};
use crate::tag::has_tag;

/// Counts the characters before a mark.
// Inlined: mostly each character is a byte.
#[inline(always)]
pub(crate) fn count_mark(text: &[u8], count: &mut Count, mark: &mut yaml_c_mark)
    requires { Counts text.now count.old }
    ensures counts { Counts text.now count.new }
    ensures is { mark.new ≡ mark_counted text.now mark.old }
{
    mark.character = count.characters_before(text, mark.index);
}

// Whether a scalar has no tag in its record, though the text has one.
fn leaves_out_tag(text: &[u8], event: &yaml_c_event) -> bool
    ensures { result ≡ leaves_out_tag text.now event.now }
{
    event.kind == 6
        && (event.has_tag == 0
            && has_tag(text, event.start.index, event.end.index, event.anchor.len))
}

// Counts the characters before the marks of an event's record, which says too whether its tag was
// left out.
fn count_event(text: &[u8], count: &mut Count, event: &mut yaml_c_event)
    requires { Counts text.now count.old }
    ensures counts { Counts text.now count.new }
    ensures is { event.new ≡ event_counted text.now event.old }
{
    count_mark(text, count, &mut event.start);
    count_mark(text, count, &mut event.end);
    if leaves_out_tag(text, event) {
        event.has_tag = 2;
    }
}

/// Counts the characters before the marks of all events of a text, and says of each scalar whether its tag was left out.
pub fn count_events(text: &[u8], events: &mut Vec<yaml_c_event>)
    ensures { events.new.items ≡ map (event_counted text.now) events.old.items }
{
    let mut count = Count::new(text);
    for i in 0..events.len() {
        count_event(text, &mut count, &mut events[i]);
    }
}
