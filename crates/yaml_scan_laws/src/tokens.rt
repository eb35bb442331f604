//! Each clause is a law.

ghost use Rattle.yaml_scan_laws.specs.Tokens.{WordTells, LevelTells, KeyTells};

/// Which tokens a word, a level and a key give.
pub fn laws_of_told_tokens()
    // One lexeme more, after the BLOCK-END of what it closes.
    ensures word_tells { WordTells }
    // One level more that is still open owes one BLOCK-END.
    ensures level_tells { LevelTells }
    // A key's words, with KEY before them and its `:` after, and the mapping that it opens.
    ensures key_tells { KeyTells }
{}
