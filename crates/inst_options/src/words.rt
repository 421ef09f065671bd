//! Reading the words of a command line with `clap`.
ghost use Rattle.std.specs.Prelude.{map, string_bytes, IfOk, IfErr};
ghost use Rattle.clap.specs.Words.{found_of, kind_of, rows_of, subcommand_rows_of};
ghost use Rattle.inst_options.specs.Asking.{IsWished, IsNoWish};
ghost use Rattle.inst_options.specs.inner.Asking.{IsAsked, IsOfKind, IsRefusedBy, IsUnasked};

use crate::bad_option::bad_option;
use crate::command_line::command_line;
use crate::error::WordsError;
use crate::invocation::Invocation;
use crate::options::wish;
use clap::error::ErrorKind;
use clap::{ArgMatches, Error};
use inst_base::Fault;
use std::alloc::Global;

/// Returns the task that these words ask for; the first word is the program's name. The time is
/// linear in the length of the words, and quadratic in the number of participants.
///
/// # Errors
/// `WordsError::Words` if the words are wrong or ask for help or the version; it has the text to
/// print. `WordsError::Option` if an option is out of its range or malformed, or is about a log and
/// `--log` is missing. `WordsError::Fault` with `Memory` if an allocation fails, or with
/// `BadSettings` if no single option shows why.
pub fn wished<'a>(alloc: Global, words: &'a [String]) -> Result<Invocation<'a>, WordsError<'a>>
    ensures ok { IfOk result (IsWished (map string_bytes words.now)) }
    ensures err { IfErr result (IsNoWish (map string_bytes words.now)) }
{
    let found = command_line(alloc)?.try_get_matches_from(words);
    match found {
        Ok(matches) => asked(alloc, &matches),
        Err(error) => Err(error_of(error)),
    }
}

/// Returns what a subcommand and its options ask for.
fn asked<'a>(alloc: Global, matches: &ArgMatches<'a>) -> Result<Invocation<'a>, WordsError<'a>>
    ensures wish { IfOk result (IsAsked (subcommand_rows_of matches.now)) }
    ensures none { IfErr result (IsUnasked (subcommand_rows_of matches.now)) }
{
    match matches.subcommand() {
        Some((name, options)) => match wish(alloc, name, options) {
            Ok(wish) => Ok(wish),
            Err(fault) => Err(refused(fault, options)),
        },
        // Never reached: a whole command line has a subcommand.
        None => Err(WordsError::Fault(Fault::BadSettings)),
    }
}

/// Returns the error for options that were refused with this fault.
fn refused<'a>(fault: Fault, options: &ArgMatches<'a>) -> WordsError<'a>
    ensures { IsRefusedBy (rows_of (found_of options.now)) fault result }
{
    if fault != Fault::BadSettings {
        return WordsError::Fault(fault);
    }
    match bad_option(options) {
        Some(bad) => WordsError::Option(bad),
        None => WordsError::Fault(fault),
    }
}

fn error_of<'a>(error: Error) -> WordsError<'a>
    ensures { IsOfKind (kind_of error) result }
{
    if error.kind() == ErrorKind::OutOfMemory {
        return WordsError::Fault(Fault::Memory);
    }
    WordsError::Words(error)
}
