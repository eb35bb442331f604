//! Each clause is a law.

ghost use Rattle.yaml_round_content.specs.PrettyLaws.{InputsLayoutIsWritable, PrettyBytesDecode, PrettyFollows, PrettyIsLost, PrettyReadsBack};

/// What is laid out in pretty form reads back, or never does.
pub fn laws_of_pretty_form()
    // The documents that are laid out for an input may be written.
    ensures inputs_layout_is_writable { InputsLayoutIsWritable }
    // By the law of pretty text, that it is read as its tokens, it reads back exactly where the input doesn't begin with nothing.
    ensures pretty_follows { PrettyFollows }
    // The bytes of pretty text decode to it.
    ensures pretty_bytes_decode { PrettyBytesDecode }
    // What is laid out in pretty form for an input that doesn't begin with nothing, read with its encoding detected, is accepted and has
    // the input's content: under all settings.
    ensures pretty_reads_back { PrettyReadsBack }
    // What is laid out in pretty form for an input that begins with nothing never is.
    ensures pretty_is_lost { PrettyIsLost }
{}
