//! The function's contract is a law.

ghost use Rattle.yaml_round_content.specs.BytesLaws.{CanonicalBytesDecode};

/// The bytes of documents in canonical form, in any of the encodings, decode to the text that is laid out, whose encoding they
/// show.
pub fn canonical_bytes_decode()
    ensures { CanonicalBytesDecode }
{}
