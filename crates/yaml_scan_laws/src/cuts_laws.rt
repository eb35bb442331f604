//! Each clause is a law.

ghost use Rattle.yaml_scan_laws.specs.CutsLaws.{WindowsAreScanned, EndedWindowsAreScanned, RefusedFrontsAreScanned};

/// A text that is cut between documents is scanned as its parts.
pub fn laws_of_cuts()
    // The tokens of a text that is cut before a mark of documents are those of its front, without the end, and then those of the
    // rest, without the start, with their places moved; and so is the fault.
    ensures windows_are_scanned { WindowsAreScanned }
    // So are those of a text that is cut after a line `...`.
    ensures ended_windows_are_scanned { EndedWindowsAreScanned }
    // Where the front has a fault, the whole has its tokens and a fault, which is the same unless it is at the front's end.
    ensures refused_fronts_are_scanned { RefusedFrontsAreScanned }
{}
