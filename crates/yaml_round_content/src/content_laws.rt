//! Each clause is a law.

ghost use Rattle.yaml_round_content.specs.ContentLaws.{ContentIsLaidOut, InputsHaveContent, InputsSayFronts, LayoutIsOfContent, SaysIsInjective};

/// Contents, what says them and what is laid out for them.
pub fn laws_of_contents()
    // A stream of events says one content at most.
    ensures says_is_injective { SaysIsInjective }
    // Each input that is accepted has a content.
    ensures inputs_have_content { InputsHaveContent }
    // What any input says, also before a fault, is a front of what a content does.
    ensures inputs_say_fronts { InputsSayFronts }
    // What is laid out in canonical form for events that say a content is the content's layout.
    ensures layout_is_of_content { LayoutIsOfContent }
    // The layout of a content is laid out for the events of each input that has it.
    ensures content_is_laid_out { ContentIsLaidOut }
{}
