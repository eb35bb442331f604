//! What a line expects beside what its call answered.

use serde_json::Value;

// The fields that calls answer. A line that has one expects it. No line expects `kept`.
const ANSWERS: &'static str =
    "answer call_number content errors fault fault_line flushed form kept length output refused \
    side sizes status whole";

/// The first field that one of them lacks, or of which they have different values: the line expects
/// its own fields and no others of what its call answered.
pub fn first_wrong(line: &Value, got: &Value) -> Option<&'static str> {
    ANSWERS
        .split_whitespace()
        .find(|name| line.get(*name) != got.get(*name))
}
