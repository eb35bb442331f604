//! Each clause is a law.

ghost use Rattle.yaml_scan_laws.specs.KeysLaws.{
  AskedHaveNoCandidate,
  KeyFreeIsLevelFree,
  KeyFreeTokensAreOwn,
  KeyFreeTextsAreBare,
  NoneIsRequired,
  WordIsRead,
};
ghost use Rattle.yaml_scan_laws.specs.KeysTexts.{WordsAreLexemes, WordsAreRead};

/// Lexemes after which no `:` makes a key.
pub fn laws_of_free_keys()
    // After a `?` in brackets, with only nodes after it, no candidate is at its depth: a `:` makes no key there.
    ensures asked_have_no_candidate { AskedHaveNoCandidate }
    // The tokens of key-free lexemes are their own, in order: no KEY is put before one, and no level opens or ends.
    ensures key_free_tokens_are_own { KeyFreeTokensAreOwn }
    // What is handed out of a key-free text without fault is its lexemes' own tokens, whole.
    ensures key_free_texts_are_bare { KeyFreeTextsAreBare }
    // Key-free lexemes open no level.
    ensures key_free_is_level_free { KeyFreeIsLevelFree }
    // Where no level opens, no candidate is required: none is missed where it goes stale, and none is
    // lost.
    ensures none_is_required { NoneIsRequired }
    // Where no level opens, the next lexeme is what its kind and its text say, whatever candidates are
    // open.
    ensures word_is_read { WordIsRead }
    // The lexemes of a text of words one after another that open no level are these
    // words.
    ensures words_are_lexemes { WordsAreLexemes }
    // A text of key-free words one after another is read as their tokens, without fault.
    ensures words_are_read { WordsAreRead }
{}
