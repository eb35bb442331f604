//! Files that are read whole, one after another, and judged, or written in normal form. One is held at a time, and what is wrong
//! with one doesn't keep the next from being judged.

use crate::engine::Engine;
use crate::fault::{FAILED, Fault, told};
use crate::file::STANDARD;
use crate::order::Order;
use crate::program::Run;
use std::io::{Read, Write};
use std::rt::Files;
use yaml_cli_files::{Folder, Found, Source, file_path};
use yaml_scan_types::yaml_fault_t;

// How a file's name is shown.
fn shown_name<'n>(order: &'n Order<'_, '_>, name: &'n str) -> &'n str {
    match order.told.get_str("stdin-filename") {
        Some(shown) if name == STANDARD => shown,
        _ => name,
    }
}

impl<G: Engine, H: Files, R: Read, W: Write, E: Write> Run<'_, '_, '_, '_, G, H, R, W, E> {
    // The status of a text that is judged, or written in normal form.
    fn judged(&mut self, source: Source<'_>) -> Result<u8, yaml_fault_t> {
        let alloc = self.streams.alloc;
        if !self.order.judges {
            return self.write_normal(source);
        }
        if self.order.told.get_flag("unique-keys") {
            let keys = self.engine.repeated_keys(alloc, source.from, source.input)?;
            return Ok(self.repeated(source, keys.as_slice()));
        }
        if self.engine.judge(alloc, &self.order.judging, source.input)? {
            Ok(0)
        } else {
            Ok(self.name_file(source.name, FAILED))
        }
    }

    fn judge_text(&mut self, source: Source<'_>) -> u8 {
        match self.judged(source) {
            Ok(status) => status,
            Err(fault) => self.refused(source, &fault),
        }
    }

    // Judges what was read of a file, or reports why it wasn't read.
    fn judge_read(&mut self, name: &str, read: Result<Vec<u8>, Fault<'static>>) {
        let from = self.order.judging.manner.from;
        let status = match read {
            Ok(input) => {
                let input = input.as_slice();
                self.judge_text(Source { name, input, from })
            }
            Err(why) => self.unread(name, &why),
        };
        self.streams.count(status);
    }

    // Judges what is found below a folder.
    fn judge_found(&mut self, found: Found) {
        let Found { path, failed } = found;
        let read = match failed {
            Some(error) => Err(Fault::Failed(error)),
            None => self.streams.whole_of(self.rt, path.as_str()),
        };
        self.judge_read(path.as_str(), read);
    }

    // Judges all files below a folder.
    fn judge_folder(&mut self, name: &str) {
        let Ok(mut folder) = Folder::new(self.streams.alloc, name) else {
            return self.judge_read(name, Err(Fault::Short));
        };
        let before = self.streams.files;
        for _ in 0..u64::MAX {
            if self.streams.stopped {
                break;
            }
            match folder.next(self.rt, &self.order.choice) {
                Some(found) => self.judge_found(found),
                None => break,
            }
        }
        if self.streams.files == before && !self.order.judging.quiet {
            told(&mut self.streams.errors, name, &Fault::Nothing);
        }
    }

    // Judges a file, or all files below a folder, unless the output takes no more.
    fn judge_named(&mut self, name: &str) {
        if self.streams.stopped {
            return;
        }
        let order = self.order;
        match self.streams.whole_of(self.rt, name) {
            Err(Fault::Failed(error)) if order.walks(error.kind()) => self.judge_folder(name),
            read => self.judge_read(shown_name(&order, name), read),
        }
    }

    // Judges the files that a list names, each name ended by a zero byte.
    fn judge_names(&mut self, names: &[u8]) {
        for name in names.split(|byte| *byte == 0) {
            if name.is_empty() {
                continue;
            }
            match file_path(self.streams.alloc, "", name) {
                Ok(name) => self.judge_named(name.as_str()),
                Err(_) => self.judge_read("", Err(Fault::Short)),
            }
        }
    }

    // Judges the files that a list names, or reports why it names none.
    fn judge_listed(&mut self, list: &str) {
        let before = self.streams.status;
        match self.streams.whole_of(self.rt, list) {
            Ok(names) if names.is_empty() || names.as_slice().contains(&0) => {
                self.judge_names(names.as_slice());
            }
            read => {
                let why = read.err().unwrap_or(Fault::Unlisted);
                let status = self.unread(list, &why);
                self.streams.settle(status);
            }
        }
        self.streams.status = self.streams.status.max(before);
    }

    /// Judges the files and those that a list names, or standard input where there are neither. The status is the worst one: 0
    /// where each is as it was asked for, 1 where one isn't or is refused, 2 where one couldn't be judged; 1 in place of that where
    /// the normal form is written.
    pub(crate) fn judge_all(&mut self) -> u8 {
        let list = self.order.told.get_str("files0-from");
        let files = self.order.files;
        if files.is_empty() && list.is_none() {
            self.judge_named(STANDARD);
        }
        for name in files {
            self.judge_named(name);
        }
        match list {
            Some(list) if !self.streams.stopped => self.judge_listed(list),
            _ => {}
        }
        if self.order.told.get_flag("verbose") {
            self.tell_count();
        }
        let most = if self.order.judges { u8::MAX } else { FAILED };
        self.streams.status.min(most)
    }

    // Reports how many files were checked, and how many of them weren't as they were asked for.
    fn tell_count(&mut self) {
        let streams = &mut self.streams;
        let (files, refused) = (streams.files, streams.refused);
        let word = if files == 1 { "file" } else { "files" };
        let _ = writeln!(streams.errors, "{files} {word}, {refused} refused");
    }
}
