//! The program over any engine, reader and writers.

use crate::engine::{Ended, Engine};
use crate::fault::{FAILED, Fault, run_failed, told, told_wrong};
use crate::file::{STANDARD, Streams};
use crate::order::{Does, Order, Task, order_in};
use crate::words::{matches_of, tell};
use clap::ArgMatches;
use std::alloc::Global;
use std::convert::AsStr;
use std::fs;
use std::io::{Read, Write};
use std::rt::Files;
use yaml_cli_files::{Choice, Glob, NO_ROOM, WrongGlob};
use yaml_round_device::{yaml_command_t, yaml_form_t, yaml_run_fault_t};

/// A run over files: what it is asked to do, by which engine, and what it reads and writes.
#[derive(Drop)]
pub(crate) struct Run<'e, 'h, 'o, 'a, G, H, R, W, E> {
    pub(crate) engine: &'e G,
    pub(crate) rt: &'h H,
    pub(crate) order: Order<'o, 'a>,
    pub(crate) streams: Streams<R, W, E>,
}

impl<G: Engine, H: Files, R: Read, W: Write, E: Write> Run<'_, '_, '_, '_, G, H, R, W, E> {
    // Runs a command over a file, or over standard input.
    fn run_path(&mut self, task: &Task, path: &str) -> Ended {
        let streams = &mut self.streams;
        let alloc = streams.alloc;
        if path == STANDARD {
            return self
                .engine
                .run(alloc, task, &mut streams.input, &mut streams.output);
        }
        match fs::open(self.rt, path) {
            Ok(mut file) => self.engine.run(alloc, task, &mut file, &mut streams.output),
            Err(_) => Err(yaml_run_fault_t::Read),
        }
    }

    // Runs a command on its file, or on standard input; returns the status.
    fn run_file(&mut self, command: yaml_command_t) -> u8 {
        let manner = self.order.judging.manner;
        let task = Task { command, manner };
        let path = self.order.files.first().copied().unwrap_or(STANDARD);
        match self.run_path(&task, path) {
            Ok(Some(yaml_form_t::Canonical)) if !manner.settings.canonical => {
                // A note: the text is written, whether or not the note can be.
                told(&mut self.streams.errors, "", &Fault::Canonical);
                0
            }
            Ok(_) => 0,
            Err(fault) => run_failed(self.streams.alloc, &mut self.streams.errors, "", &fault),
        }
    }

    // Does what is ordered; returns the status.
    fn follow(&mut self) -> u8 {
        match self.order.does {
            Does::Run(command) if !self.order.judges => self.run_file(command),
            Does::Same | Does::Diff => self.compare(),
            _ => self.judge_all(),
        }
    }
}

fn add_glob<'a>(alloc: Global, globs: &mut Vec<Glob<'a>>, value: &'a str) -> Result<(), WrongGlob> {
    let glob = Glob::new(alloc, value)?;
    globs.push(glob).map_err(|_| NO_ROOM)
}

// The patterns of an option, and what is wrong with the first one that is none.
fn globs_in<'a>(
    alloc: Global,
    told: &ArgMatches<'a>,
    option: &'static str,
    wrong: &mut Option<Fault<'a>>,
) -> Vec<Glob<'a>> {
    let mut globs = Vec::new(alloc);
    for value in told.get_strs(option).unwrap_or(&[]) {
        if let Err(WrongGlob { why, place }) = add_glob(alloc, &mut globs, value) {
            *wrong = Some(Fault::Pattern {
                option,
                value,
                why,
                place,
            });
        }
    }
    globs
}

// Does what is found among the words; returns the status.
fn follow<G: Engine, H: Files, R: Read + Drop, W: Write + Drop, E: Write + Drop>(
    engine: &G,
    rt: &H,
    matches: &ArgMatches<'_>,
    mut streams: Streams<R, W, E>,
) -> u8 {
    let Some((name, told)) = matches.subcommand() else {
        return FAILED;
    };
    let mut wrong = None;
    let included = globs_in(streams.alloc, told, "include", &mut wrong);
    let excluded = globs_in(streams.alloc, told, "exclude", &mut wrong);
    let choice = Choice {
        included: included.as_slice(),
        excluded: excluded.as_slice(),
    };
    let order = order_in(name, told, choice, &mut wrong);
    if let Some(wrong) = wrong {
        return told_wrong(&mut streams.errors, &wrong);
    }
    let mut run = Run {
        engine,
        rt,
        order,
        streams,
    };
    run.follow()
}

/// Does what the words say, the program's name first, by `engine`, over `input`, `output` and `errors`; files are opened
/// through `rt`. Answers the status: 0, 1 where a command was refused or failed, 2 where a word is wrong. A refusal is a line
/// on `errors`; nothing is written to `output` then, except for a front of the text where writing itself fails.
pub fn main_by<G: Engine, H: Files + AllocGlobal, S: AsStr, R: Read, W: Write, E: Write>(
    engine: &G,
    rt: &H,
    words: &[S],
    input: &mut R,
    output: &mut W,
    errors: &mut E,
) -> u8 {
    let mut streams = Streams::new(rt.alloc(), input, output, errors);
    match matches_of(rt.alloc(), words) {
        Ok(matches) => follow(engine, rt, &matches, streams),
        Err(error) => tell(&error, &mut streams),
    }
}
