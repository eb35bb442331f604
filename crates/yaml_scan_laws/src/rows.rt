//! Each clause is a law.

ghost use Rattle.yaml_scan_laws.specs.Rows.{BlocksAreRead, KeysAreRead};

/// Small texts are read by the laws of walks.
pub fn laws_of_rows()
    // A small text with blocks, by the laws of walks.
    ensures blocks_are_read { BlocksAreRead }
    // A small text with `?` and brackets, by the laws of walks.
    ensures keys_are_read { KeysAreRead }
{}
