//! Each function's contract is a law.

ghost use Rattle.yaml_round_content.specs.EncodingsLaws.{CharactersAreEnough, EncodingsDoNotMatter};
ghost use Rattle.yaml_round_content.specs.EncodingsTexts.{NoTextHasNoToken, ReadingIsOfText, TokensAreOfText};

/// Texts in each encoding.
pub fn laws_of_encodings()
    // Bytes that spell the same text, in UTF-8 or UTF-16, after a byte order mark or without one,
    // have the same content, and where they are refused, they are so by the same fault at the same
    // place.
    ensures encodings_do_not_matter { EncodingsDoNotMatter }
    // So it is of characters that a stream may hold, spelled in any two encodings: named, shown by
    // their byte order marks, or UTF-8 where none is named and no mark is first.
    ensures characters_are_enough { CharactersAreEnough }
{}

/// What an input says is what the text says that its bytes spell; bytes that spell none are refused by the reader.
pub fn texts_are_read()
    ensures tokens { TokensAreOfText }
    ensures none { NoTextHasNoToken }
    ensures reading { ReadingIsOfText }
{}
