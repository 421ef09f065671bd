//! The program's command line, for `clap`.
ghost use Rattle.std.specs.Prelude.{◌≡◌, IfOk, false};
ghost use Rattle.clap.specs.Words.{app_of, rule_of};
ghost use Rattle.inst_options.specs.CommandLine.{bare_command_line};
ghost use Rattle.inst_options.specs.CommandLine.{command_line as the_command_line};
ghost use Rattle.inst_options.specs.inner.CommandLine.{HasOwnOptions};
ghost use Rattle.inst_options.specs.inner.Table.{app_of_row, rule_of_choice};

use crate::table::{Kind, OptionRow, Subcommand, subcommands};
use crate::texts;
use clap::{Arg, Command};
use std::alloc::{AllocError, Global};

/// The version that `--version` prints. Its first number changes with the lines, replies, faults,
/// options or exit statuses.
const VERSION: &str = "1.1.0";

/// Returns the program's command line.
pub(crate) fn command_line<'a>(alloc: Global) -> Result<Command<'a>, AllocError>
    ensures { IfOk result (λ command. app_of command ≡ the_command_line) }
{
    let mut program = bare_command_line(alloc);
    for row in subcommands() {
        program = program.subcommand(subcommand(alloc, row)?)?;
    }
    Ok(program)
}

/// Returns the program without its subcommands.
fn bare_command_line<'a>(alloc: Global) -> Command<'a>
    ensures { app_of result ≡ bare_command_line }
{
    Command::new(alloc, "inst_main")
        .version(VERSION)
        .about("The clearing core of a hub for instant credit transfers")
        .after_help(texts::PROGRAM)
        .subcommand_required(true)
}

/// Returns the subcommand of a row.
fn subcommand<'a>(alloc: Global, row: &Subcommand) -> Result<Command<'a>, AllocError>
    ensures shape { IfOk result (λ command. app_of command ≡ app_of_row row.now) }
    ensures local { IfOk result (λ command. HasOwnOptions command) }
{
    let mut command = Command::new(alloc, row.name)
        .about(row.about)
        .long_about(row.long_about);
    for group in row.groups {
        for choice in group.choices() {
            command = command.arg(argument(alloc, choice))?;
        }
    }
    match row.after_help {
        Some(text) => Ok(command.after_help(text)),
        None => Ok(command),
    }
}

/// Returns the argument of a row.
fn argument<'a>(alloc: Global, choice: &OptionRow) -> Arg<'a>
    ensures rule { rule_of result ≡ rule_of_choice choice.now }
    ensures local { result.global ≡ false }
{
    let arg = Arg::new(alloc, choice.name)
        .action(choice.kind.action())
        .required(choice.required)
        .value_names(choice.value_names)
        .default_values(choice.defaults)
        .help(choice.help);
    match choice.kind {
        Kind::Word | Kind::Words => arg,
        Kind::Flag | Kind::Text => arg.long(choice.name),
        Kind::Number => arg.long(choice.name).value_parser(clap::value_parser!(u64)),
    }
}
