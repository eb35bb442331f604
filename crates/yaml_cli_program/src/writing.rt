//! Normal forms: one that is written to standard output, or in the place of the file.

use crate::engine::Engine;
use crate::fault::{FAILED, Fault};
use crate::file::STANDARD;
use crate::program::Run;
use std::io::{Read, Write};
use std::rt::Files;
use yaml_cli_files::{At, Source, Unreplaced, replace};
use yaml_scan_types::{yaml_fault_t, yaml_mark_t};

impl<G: Engine, H: Files, R: Read, W: Write, E: Write> Run<'_, '_, '_, '_, G, H, R, W, E> {
    // Reports a comment, which the normal form hasn't; returns the status.
    fn has_comment(&mut self, name: &str, place: yaml_mark_t) -> u8 {
        if !self.order.judging.quiet {
            let at = At { name, place };
            let _ = writeln!(
                self.streams.errors,
                "{at}: has a comment, which would be lost; --drop-comments writes it all the same"
            );
        }
        FAILED
    }

    // The first comment that would be lost, where that matters.
    fn comment_of(&self, source: Source<'_>) -> Result<Option<yaml_mark_t>, yaml_fault_t> {
        if self.order.told.get_flag("drop-comments") {
            return Ok(None);
        }
        self.engine
            .comment(self.streams.alloc, source.from, source.input)
    }

    // Puts the text in the place of the file, and names it.
    fn put_in_place(&mut self, name: &str, text: &[u8]) -> u8 {
        let fault = match replace(self.rt, self.streams.alloc, name, text) {
            Ok(()) => return self.name_file(name, 0),
            Err(Unreplaced::Failed(error)) => Fault::Failed(error),
            Err(Unreplaced::HasLinks(links)) => Fault::HasLinks(links),
        };
        self.unread(name, &fault)
    }

    // Writes the normal form of a file in its place, unless it has that form, or has a comment.
    fn write_in_place(&mut self, source: Source<'_>, text: &[u8]) -> Result<u8, yaml_fault_t> {
        if source.name == STANDARD {
            return Ok(self.unread(source.name, &Fault::NoPlace));
        }
        if text == source.input {
            return Ok(0);
        }
        match self.comment_of(source)? {
            None => Ok(self.put_in_place(source.name, text)),
            Some(place) => Ok(self.has_comment(source.name, place)),
        }
    }

    /// Writes the normal form of a file; returns the status, or why it has none.
    pub(crate) fn write_normal(&mut self, source: Source<'_>) -> Result<u8, yaml_fault_t> {
        let (alloc, manner) = (self.streams.alloc, &self.order.judging.manner);
        let text = self.engine.normalize(alloc, manner, source.input)?;
        if self.order.writes {
            return self.write_in_place(source, text.as_slice());
        }
        let written = self.streams.output.write_all(text.as_slice());
        Ok(self.streams.flushed(written))
    }
}
