//! Two files that are compared. Standard input, named twice, is read once.

use crate::difference::push_difference;
use crate::engine::{AllParted, Difference, Engine, Side};
use crate::fault::{FAILED, Fault, UNJUDGED, run_failed, show, told};
use crate::file::{STANDARD, write_answer};
use crate::order::{Does, Measure};
use crate::program::Run;
use std::alloc::{AllocError, Global};
use std::io::{Read, Write};
use std::rt::Files;
use yaml_cli_files::Source;
use yaml_round_device::yaml_run_fault_t;
use yaml_scan_types::{yaml_memory_fault, yaml_origin_t};

// How a line calls an input of two.
fn input_name(side: Side) -> &'static str {
    match side {
        Side::First => "first input: ",
        Side::Second => "second input: ",
    }
}

// Why an input wasn't read, as a run reports it.
fn fault_of(why: &Fault<'_>) -> yaml_run_fault_t {
    match why {
        Fault::TooLong => yaml_run_fault_t::TooLong,
        Fault::Short => yaml_run_fault_t::Yaml(yaml_memory_fault(yaml_origin_t::Reader)),
        _ => yaml_run_fault_t::Read,
    }
}

// Adds what is shown of the places, in the order of the first text, and how many they are where all are listed.
fn push_all(
    alloc: Global,
    text: &mut String,
    found: &mut Vec<Difference>,
    lists: bool,
    first: Source<'_>,
    second: Source<'_>,
) -> Result<(), AllocError> {
    found.sort_by_key(|difference| difference.first.start.index)?;
    for difference in found.as_slice() {
        push_difference(alloc, text, difference, first, second)?;
    }
    match found.len() {
        _ if !lists => Ok(()),
        1 => text.push_str("1 difference\n"),
        count => writeln!(text, "{count} differences"),
    }
}

impl<G: Engine, H: Files, R: Read, W: Write, E: Write> Run<'_, '_, '_, '_, G, H, R, W, E> {
    // Reads one file of two. Where it can't be read, that is reported, and its status is returned.
    fn read_side(&mut self, name: &str, side: Side) -> Result<Vec<u8>, u8> {
        let why = match self.streams.whole_of(self.rt, name) {
            Ok(bytes) => return Ok(bytes),
            Err(_) if self.order.judging.quiet => return Err(UNJUDGED),
            Err(why) => why,
        };
        let errors = &mut self.streams.errors;
        if let Does::Diff = self.order.does {
            told(errors, name, &why);
            return Err(UNJUDGED);
        }
        Err(run_failed(
            self.streams.alloc,
            errors,
            input_name(side),
            &fault_of(&why),
        ))
    }

    // Reports whether they have the same content; returns the status.
    fn tell_same(&mut self, first: Source<'_>, second: Source<'_>) -> u8 {
        let quiet = self.order.judging.quiet;
        let streams = &mut self.streams;
        let alloc = streams.alloc;
        match self
            .engine
            .same(alloc, first.from, first.input, second.input)
        {
            Ok(same) if quiet => u8::from(!same),
            Ok(true) => write_answer(b"equal\n", &mut streams.output, &mut streams.errors),
            Ok(false) => write_answer(b"different\n", &mut streams.output, &mut streams.errors),
            Err(_) if quiet => UNJUDGED,
            Err((side, fault)) => run_failed(alloc, &mut streams.errors, input_name(side), &fault),
        }
    }

    // The first place where they differ, if any, or all places.
    fn differences(&self, first: &[u8], second: &[u8]) -> AllParted {
        let alloc = self.streams.alloc;
        let by = Measure {
            from: self.order.judging.manner.from,
            documents: self.order.told.get_flag("documents"),
        };
        if self.order.told.get_flag("all") {
            return self.engine.differences(alloc, by, first, second);
        }
        let found = self.engine.diff(alloc, by, first, second)?;
        let short = (Side::First, yaml_memory_fault(yaml_origin_t::Loader));
        Vec::from_iter(alloc, found).map_err(|_| short)
    }

    // Shows the places where they differ, if there is room for it; returns the status.
    fn put_differences(
        &mut self,
        found: &mut Vec<Difference>,
        first: Source<'_>,
        second: Source<'_>,
    ) -> u8 {
        let alloc = self.streams.alloc;
        let lists = self.order.told.get_flag("all");
        let mut text = String::new(alloc);
        match push_all(alloc, &mut text, found, lists, first, second) {
            Ok(()) => self.streams.put_text(&text, FAILED),
            Err(_) => UNJUDGED,
        }
    }

    // Reports where they differ; returns diff's status: 0 where they don't, 1 where they do, 2 where they can't be compared.
    fn tell_diff(&mut self, first: Source<'_>, second: Source<'_>) -> u8 {
        let quiet = self.order.judging.quiet;
        match self.differences(first.input, second.input) {
            Ok(found) if found.is_empty() => 0,
            Ok(_) if quiet => FAILED,
            Ok(mut found) => self.put_differences(&mut found, first, second),
            Err(_) if quiet => UNJUDGED,
            Err((side, fault)) => {
                let source = match side {
                    Side::First => first,
                    Side::Second => second,
                };
                show(self.streams.alloc, &mut self.streams.errors, source, &fault);
                UNJUDGED
            }
        }
    }

    // The status of the comparison, or that of a file that can't be read.
    fn compared(&mut self) -> Result<u8, u8> {
        let told = self.order.told;
        let name = told.get_str("first").unwrap_or("");
        let other = told.get_str("second").unwrap_or("");
        let from = self.order.judging.manner.from;
        let input = self.read_side(name, Side::First)?;
        let input = input.as_slice();
        let first = Source { name, input, from };
        let read = if name == STANDARD && other == STANDARD {
            None
        } else {
            Some(self.read_side(other, Side::Second)?)
        };
        let second = Source {
            name: other,
            input: read.as_deref().unwrap_or(input),
            from,
        };
        Ok(match self.order.does {
            Does::Diff => self.tell_diff(first, second),
            _ => self.tell_same(first, second),
        })
    }

    /// Compares two files; returns the status.
    pub(crate) fn compare(&mut self) -> u8 {
        self.compared().unwrap_or_else(|status| status)
    }
}
