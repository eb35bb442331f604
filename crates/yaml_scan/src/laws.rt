//! Laws of the definitions.

ghost use Rattle.yaml_scan.specs.Looking.{TokensLookBack};
ghost use Rattle.yaml_scan_core.specs.Settled.{WhateverFollows};

/// What is settled stays so, whatever follows: the tokens that as many lexemes of a text settle are
/// the first ones of every text that has these lexemes too.
pub fn settled_is_told()
    ensures { WhateverFollows }
{}

/// The tokens of a session that begins, and the fault that ends them, by looking back from each lexeme of the text that the
/// input's bytes spell: KEY is before a lexeme exactly if a later `:` finds it.
pub fn tokens_look_back()
    ensures { TokensLookBack }
{}
