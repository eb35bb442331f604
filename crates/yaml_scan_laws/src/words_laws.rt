//! Each clause is a law.

ghost use Rattle.yaml_scan_laws.specs.WordsLaws.{LoneMarkReads, TagDirectiveReads, VersionReads};

/// How words that are written are read.
pub fn laws_of_written_words()
    // `%YAML 1.` and a digit before a break is that version's directive, with its line.
    ensures version_reads { VersionReads }
    // `%TAG`, a handle and a URI before a break is that directive, with its line.
    ensures tag_directive_reads { TagDirectiveReads }
    // `!` before a space is a suffix alone.
    ensures lone_mark_reads { LoneMarkReads }
{}
