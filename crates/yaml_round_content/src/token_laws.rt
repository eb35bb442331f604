//! Each clause is a law.

ghost use Rattle.yaml_round_content.specs.TokenLaws.{BeginningIsTold, PrettyTokensAreLost, PrettyTokensAreParsed, PrettyTokensPass, PrettyTokensSayDocuments};

/// What a parser makes of the tokens of pretty text.
pub fn laws_of_pretty_tokens()
    // Tokens with the bodies of documents in pretty form are parsed without fault, and their events say the documents, unless these
    // start with nothing.
    ensures pretty_tokens_are_parsed { PrettyTokensAreParsed }
    // Such tokens, in which tags can be read and prefixes are UTF-8, pass the adapter as they are.
    ensures pretty_tokens_pass { PrettyTokensPass }
    // So they say what events do that are those of the documents, where these have flags as a reader gives them.
    ensures pretty_tokens_say_documents { PrettyTokensSayDocuments }
    // Documents that start with nothing are known by their first three events.
    ensures beginning_is_told { BeginningIsTold }
    // Tokens of documents that start with nothing don't say them.
    ensures pretty_tokens_are_lost { PrettyTokensAreLost }
{}
