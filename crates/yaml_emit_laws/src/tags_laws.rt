//! Each clause is a law.

ghost use Rattle.yaml_emit_laws.specs.TagsLaws.{
  DirectivesAreRead,
  ReadableDirectivesAreAscii,
  ReadableTagsAreAscii,
  SplitTagsAreRead,
  TagsAreReadBack,
  TagsResolve,
  WrittenDirectivesAreReadable,
  WrittenTagsAreReadable,
};

/// Tags and directives are read back.
pub fn laws_of_tags()
    // The handle and suffix, or the whole tag, that an emitter writes under directives that it takes, a parser resolves under
    // them to the tag.
    ensures tags_resolve { TagsResolve }
    // A handle and a suffix in UTF-8, or a whole tag in UTF-8, is read as it was, wherever a text has its spelling before what
    // may end a tag.
    ensures split_tags_are_read { SplitTagsAreRead }
    // What is written for a tag in UTF-8, under directives that may be written, is read back as that tag.
    ensures tags_are_read_back { TagsAreReadBack }
    // What is written for it is such a handle and suffix, or such a whole tag.
    ensures written_tags_are_readable { WrittenTagsAreReadable }
    // It is ASCII that begins with `!`.
    ensures readable_tags_are_ascii { ReadableTagsAreAscii }
    // Directives that may be written have handles of that shape, and prefixes of one byte at least.
    ensures written_directives_are_readable { WrittenDirectivesAreReadable }
    // Their handles and prefixes are written in ASCII.
    ensures readable_directives_are_ascii { ReadableDirectivesAreAscii }
    // Such a directive is read as it was, wherever a text has it before a break.
    ensures directives_are_read { DirectivesAreRead }
{}
