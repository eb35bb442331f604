//! Findings that programs read: a line each, on standard output.

use crate::engine::Engine;
use crate::fault::{FAILED, Fault, UNJUDGED, refusal_status, show, told};
use crate::program::Run;
use std::io::{Read, Write};
use std::rt::Files;
use yaml_cli_files::{Finding, Format, RepeatedKey, Shown, Source, push_finding, push_repeated};
use yaml_scan_types::{yaml_error_type_t, yaml_fault_t};

// A file that wasn't read, for that reason.
fn unread_finding<'f>(name: &'f str, why: &'f str) -> Finding<'f> {
    Finding::new(name, "io", why, None, None)
}

impl<G: Engine, H: Files, R: Read, W: Write, E: Write> Run<'_, '_, '_, '_, G, H, R, W, E> {
    // Writes a finding's line; returns the status that is passed, or that of an output that takes no more.
    fn put_finding(&mut self, finding: &Finding<'_>, status: u8) -> u8 {
        let alloc = self.streams.alloc;
        let mut text = String::new(alloc);
        match push_finding(alloc, &mut text, self.order.judging.format, finding) {
            Ok(()) => self.streams.put_text(text.as_str(), status),
            Err(_) => UNJUDGED,
        }
    }

    /// Names a file that isn't as it was asked for, or that was written; returns the status that is passed, or that of an output
    /// that takes no more.
    pub(crate) fn name_file(&mut self, name: &str, status: u8) -> u8 {
        if self.order.judging.quiet {
            return status;
        }
        let name = Shown(name);
        match format!(in self.streams.alloc; "{name}\n") {
            Ok(line) => self.streams.put_text(line.as_str(), status),
            Err(_) => UNJUDGED,
        }
    }

    /// Reports the fault of a file's text, as is ordered; returns the status.
    pub(crate) fn refused(&mut self, source: Source<'_>, fault: &yaml_fault_t) -> u8 {
        let status = refusal_status(fault);
        let judging = self.order.judging;
        if judging.quiet {
            return status;
        }
        let errors = &mut self.streams.errors;
        if fault.kind == yaml_error_type_t::YAML_WRITER_ERROR {
            let name = Shown(source.name);
            let past = Fault::PastLimit(judging.manner.settings.limit);
            let _ = writeln!(errors, "{name}: {past}");
            return status;
        }
        if let Format::Full = judging.format {
            show(self.streams.alloc, errors, source, fault);
            return status;
        }
        self.put_finding(&Finding::of(source, fault), status)
    }

    // Reports a key that is in its mapping more than once; returns the status.
    fn tell_repeated(&mut self, source: Source<'_>, key: RepeatedKey) -> u8 {
        let alloc = self.streams.alloc;
        let format = self.order.judging.format;
        let mut text = String::new(alloc);
        match push_repeated(alloc, &mut text, format, source, key) {
            Ok(()) if matches!(format, Format::Full) => {
                let _ = write!(self.streams.errors, "{text}");
                FAILED
            }
            Ok(()) => self.streams.put_text(text.as_str(), FAILED),
            Err(_) => UNJUDGED,
        }
    }

    /// Reports the keys of a file that are in their mapping more than once, as is ordered; returns the status.
    pub(crate) fn repeated(&mut self, source: Source<'_>, keys: &[RepeatedKey]) -> u8 {
        let mut status = if keys.is_empty() { 0 } else { FAILED };
        for key in keys {
            if self.order.judging.quiet || self.streams.stopped {
                break;
            }
            status = self.tell_repeated(source, *key).max(status);
        }
        status
    }

    /// Reports why a file wasn't read, as is ordered; returns the status.
    pub(crate) fn unread(&mut self, name: &str, why: &Fault<'_>) -> u8 {
        if self.order.judging.quiet {
            return UNJUDGED;
        }
        if let Format::Full = self.order.judging.format {
            told(&mut self.streams.errors, name, why);
            return UNJUDGED;
        }
        match format!(in self.streams.alloc; "{why}") {
            Ok(problem) => {
                let finding = unread_finding(name, problem.as_str());
                self.put_finding(&finding, UNJUDGED)
            }
            Err(_) => UNJUDGED,
        }
    }
}
