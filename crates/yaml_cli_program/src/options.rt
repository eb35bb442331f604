//! The words of each command, for clap.

use crate::order::does_of;
use crate::table::{AFTER, COMMANDS, Kind, LONG, ROWS, Row, Told};
use crate::version::VERSION;
use clap::builder::ValueParser;
use clap::{Arg, ArgAction, Command};
use std::alloc::{AllocError, Global};
use yaml_round_device::DEFAULT_LIMIT;

// An argument is made in small steps of two calls or so: what a function costs to prove grows with the square of its calls.

// What help calls the value of an argument, and the value where it is left out.
fn shown_value(kind: Kind) -> (&'static str, &'static str) {
    match kind {
        Kind::Flag(_) => ("", "false"),
        Kind::Columns(usual, ..) => ("COLUMNS", usual),
        Kind::Bytes(usual) => ("BYTES", usual),
        Kind::Text(value, usual) => (value, usual),
        Kind::Place(value)
        | Kind::Many(value)
        | Kind::Needed(value)
        | Kind::Name(value)
        | Kind::Names(value) => (value, ""),
    }
}

fn parser_of<'a>(kind: Kind) -> ValueParser<'a> {
    match kind {
        Kind::Flag(_) => ValueParser::Bool,
        Kind::Columns(_, least, most) => ValueParser::Signed(least, most),
        // No limit is set above the one that holds where none is set.
        Kind::Bytes(_) => ValueParser::Unsigned(0, DEFAULT_LIMIT),
        _ => ValueParser::String,
    }
}

fn option_of<'a>(arg: Arg<'a>, row: &Row) -> Arg<'a> {
    arg.long(row.0)
        .default_value(shown_value(row.1).1)
        .value_parser(parser_of(row.1))
}

fn flag_of<'a>(arg: Arg<'a>, letter: char) -> Arg<'a> {
    let arg = arg.action(ArgAction::SetTrue);
    if letter == LONG {
        arg
    } else {
        arg.short(letter)
    }
}

fn arg_of<'a>(alloc: Global, row: &Row) -> Arg<'a> {
    let arg = Arg::new(alloc, row.0)
        .help(row.3)
        .value_name(shown_value(row.1).0);
    match row.1 {
        Kind::Place(_) => arg,
        Kind::Many(_) => arg.num_args(0..),
        Kind::Needed(_) => arg.required(true),
        Kind::Flag(letter) => flag_of(option_of(arg, row), letter),
        Kind::Name(_) => arg.long(row.0),
        Kind::Names(_) => arg.long(row.0).action(ArgAction::Append),
        Kind::Columns(..) => option_of(arg, row).allow_negative_numbers(true),
        _ => option_of(arg, row),
    }
}

// A command with its arguments.
fn command_of<'a>(alloc: Global, told: &Told) -> Result<Command<'a>, AllocError> {
    let mut command = Command::new(alloc, told.name)
        .about(told.about)
        .after_help(told.after);
    for row in &ROWS {
        if row.2 & told.bit != 0 {
            command = match command.arg(arg_of(alloc, row)) {
                Ok(more) => more,
                Err(error) => return Err(error),
            };
        }
    }
    Ok(command)
}

fn bare_command<'a>(alloc: Global) -> Command<'a> {
    let about = "Checks, compares and rewrites YAML";
    Command::new(alloc, "yaml_cli")
        .about(about)
        .after_help(AFTER)
        .version(VERSION)
        .subcommand_required(true)
}

/// The program's words, where the first of them is `name`: those of the command that it names, else those of all commands.
pub(crate) fn whole_command<'a>(alloc: Global, name: &str) -> Result<Command<'a>, AllocError> {
    let mut whole = bare_command(alloc);
    let is_named = does_of(name).is_some();
    for told in &COMMANDS {
        if !is_named || told.name == name {
            let command = command_of(alloc, told)?;
            whole = whole.subcommand(command)?;
        }
    }
    whole.bin_name("yaml_cli")
}
