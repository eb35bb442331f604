//! A law of the events that are to come.

ghost use Rattle.yaml_parse.specs.Kept.{EventsAreFew, EventsAreLeast, EventsBeginSentence, EventsBeginTree};

/// Of the events that a new parser is to give, since they are its tokens' events: at most four have come so far for each token
/// that was asked for; before a fault they begin those of a tree, with all that every such tree gives, and those of a sentence,
/// whose directives and tag handles are in order.
pub fn events_keep_to_tokens()
    ensures few { EventsAreFew }
    ensures front { EventsBeginTree }
    ensures least { EventsAreLeast }
    ensures sentence { EventsBeginSentence }
{}
