//! Each clause is a law.

ghost use Rattle.yaml_scan_laws.specs.Ends.{StartStands, EndIsRead};

/// Where a text starts and ends.
pub fn laws_of_ends()
    // What is known after the stream's start.
    ensures start_stands { StartStands }
    // The stream's end closes all levels, and all is read, without fault.
    ensures end_is_read { EndIsRead }
{}
