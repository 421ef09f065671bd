//! The tables of subcommands and their options.
ghost use Rattle.std.specs.Prelude.{◌≡◌, map};
ghost use Rattle.inst_options.specs.CommandLine.{bare_command_line, command_line};
ghost use Rattle.inst_options.specs.inner.Table.{action_of, rule_of_choice, rules_of, with_rows};

use crate::texts;
use clap::ArgAction;

/// A subcommand of the program.
pub(crate) struct Subcommand {
    pub(crate) name: &'static str,
    /// Its description in one line.
    pub(crate) about: &'static str,
    /// Its long description.
    pub(crate) long_about: &'static str,
    /// The end of its help, if any.
    pub(crate) after_help: Option<&'static str>,
    /// The groups of its options, in the order of the help.
    pub(crate) groups: &'static [Group],
}

/// A group of options that subcommands share. A row names its groups instead of holding their
/// lists: one constant with all lists is too large to be checked.
#[derive(Clone, Copy)]
pub(crate) enum Group {
    /// The settings of a hub.
    Hub,
    /// The log of a run, and its summary.
    Run,
    /// The numbers and the script of a drill.
    Drill,
    /// The file for `log`.
    Log,
    /// The files for `next`.
    Next,
    /// The settings that `next` can change.
    Changes,
    /// The files for `audit`.
    Audit,
    /// The fault for `explain`.
    Explain,
}

impl Group {
    /// Returns the options of the group.
    pub(crate) fn choices(self) -> &'static [OptionRow]
        ensures { map rule_of_choice result.now ≡ rules_of self }
    {
        match self {
            Group::Hub => HUB,
            Group::Run => RUN,
            Group::Drill => DRILL,
            Group::Log => LOG,
            Group::Next => NEXT,
            Group::Changes => CHANGES,
            Group::Audit => AUDIT,
            Group::Explain => EXPLAIN,
        }
    }
}

/// An option of a subcommand, or a positional word.
pub(crate) struct OptionRow {
    /// Its name, without the dashes.
    pub(crate) name: &'static str,
    pub(crate) kind: Kind,
    /// `true` if it must be given.
    pub(crate) required: bool,
    /// The name of its value in the help, if it has one.
    pub(crate) value_names: &'static [&'static str],
    /// Its default, if it has one.
    pub(crate) defaults: &'static [&'static str],
    /// Its description in the help.
    pub(crate) help: &'static str,
}

/// The kind of an option.
#[derive(Clone, Copy)]
pub(crate) enum Kind {
    /// An option without a value.
    Flag,
    /// A positional word.
    Word,
    /// One positional word or more.
    Words,
    /// An option with a text.
    Text,
    /// An option with a whole number of 64 bits.
    Number,
}

impl Kind {
    /// Returns what `clap` does with it.
    pub(crate) fn action(self) -> ArgAction
        ensures { result ≡ action_of self }
    {
        match self {
            Kind::Flag => ArgAction::SetTrue,
            Kind::Words => ArgAction::Append,
            Kind::Word | Kind::Text | Kind::Number => ArgAction::Set,
        }
    }
}

/// Returns the table of subcommands. Code visits the table through this call, so that the constant
/// is in no proof about commands.
pub(crate) fn subcommands() -> &'static [Subcommand]
    ensures { with_rows bare_command_line result.now ≡ command_line }
{
    SUBCOMMANDS
}

/// All subcommands, in the order of the help.
const SUBCOMMANDS: &'static [Subcommand] = &[
    Subcommand {
        name: "run",
        about: "Answers each command on standard input with one line on standard output",
        long_about: texts::RUN,
        after_help: Some(texts::MOMENTS),
        groups: &[Group::Hub, Group::Run],
    },
    Subcommand {
        name: "play",
        about: "Answers each line of a script on standard input with one line on standard output, \
            without follow-ups",
        long_about: texts::PLAY,
        after_help: Some(texts::MOMENTS),
        groups: &[Group::Hub, Group::Run],
    },
    Subcommand {
        name: "check",
        about: "Checks the commands on standard input without answering them, and reports the \
            invalid ones",
        long_about: texts::CHECK,
        after_help: Some(texts::MOMENTS),
        groups: &[Group::Hub],
    },
    Subcommand {
        name: "drill",
        about: "Drills a hub with threads that race at a deadline, and prints four lines for each \
            opening",
        long_about: texts::DRILL,
        after_help: Some(texts::MOMENTS),
        groups: &[Group::Hub, Group::Drill],
    },
    Subcommand {
        name: "log",
        about: "Prints a log's settings, its number of lines and its last digest",
        long_about: texts::LOG,
        after_help: None,
        groups: &[Group::Log],
    },
    Subcommand {
        name: "next",
        about: "Closes the hub of a log, and makes the log of the next opening, which begins with \
            its books",
        long_about: texts::NEXT,
        after_help: None,
        groups: &[Group::Next, Group::Changes],
    },
    Subcommand {
        name: "audit",
        about: "Audits logs that follow one another, the oldest first, and prints one line for each",
        long_about: texts::AUDIT,
        after_help: None,
        groups: &[Group::Audit],
    },
    Subcommand {
        name: "explain",
        about: "Prints what a refusal or a fault usually means, and what to do",
        long_about: texts::EXPLAIN,
        after_help: None,
        groups: &[Group::Explain],
    },
];

/// The settings of a hub: participants, capacities, times, maximum amount and base.
const HUB: &'static [OptionRow] = &[
    OptionRow {
        name: "participants",
        kind: Kind::Text,
        required: true,
        value_names: &["CODES"],
        defaults: &[],
        help: texts::PARTICIPANTS,
    },
    OptionRow {
        name: "places",
        kind: Kind::Number,
        required: false,
        value_names: &["COUNT"],
        defaults: &["256"],
        help: "Transfers that each originator can have in one opening, 1 to 1024",
    },
    OptionRow {
        name: "fundings",
        kind: Kind::Number,
        required: false,
        value_names: &["COUNT"],
        defaults: &["256"],
        help: "Fund and defund commands of each participant in one opening, 1 to 1024",
    },
    OptionRow {
        name: "limit",
        kind: Kind::Number,
        required: false,
        value_names: &["MS"],
        defaults: &["10000"],
        help: "Maximum execution time, from time stamp to deadline, in milliseconds, 1 to 3600000",
    },
    OptionRow {
        name: "margin",
        kind: Kind::Number,
        required: false,
        value_names: &["MS"],
        defaults: &["0"],
        help: "Cut-off for acceptance before the deadline, in milliseconds, 0 to limit - 1",
    },
    OptionRow {
        name: "ahead",
        kind: Kind::Number,
        required: false,
        value_names: &["MS"],
        defaults: &["1000"],
        help: "How far a time stamp may be after the clock reading, in milliseconds, 0 to 60000",
    },
    OptionRow {
        name: "ceiling",
        kind: Kind::Number,
        required: false,
        value_names: &["CENTS"],
        defaults: &["99999999999"],
        help: "Maximum amount of one command, in cents, 1 to 99999999999",
    },
    OptionRow {
        name: "base",
        kind: Kind::Number,
        required: false,
        value_names: &["MS"],
        defaults: &["0"],
        help: "Earliest moment, in milliseconds, 0 to 4611686018427387904 (2^62)",
    },
];

/// The further options of a run: its log, and a summary.
const RUN: &'static [OptionRow] = &[
    OptionRow {
        name: "log",
        kind: Kind::Text,
        required: false,
        value_names: &["FILE"],
        defaults: &[],
        help: "Writes each line to FILE before its reply, and resumes after the lines that FILE \
            already has",
    },
    OptionRow {
        name: "told",
        kind: Kind::Number,
        required: false,
        value_names: &["COUNT"],
        defaults: &[],
        help: "Number of replies to the log's lines that you have, all if not given; the others \
            are written first",
    },
    OptionRow {
        name: "resume",
        kind: Kind::Flag,
        required: false,
        value_names: &[],
        defaults: &[],
        help: "Refuses to make a new log; --digest and a --told above 0 imply it",
    },
    OptionRow {
        name: "digest",
        kind: Kind::Text,
        required: false,
        value_names: &["HEX"],
        defaults: &[],
        help: "Digest that the log must contain, 64 hexadecimal digits in lower case",
    },
    OptionRow {
        name: "summary",
        kind: Kind::Flag,
        required: false,
        value_names: &[],
        defaults: &[],
        help: "Prints on standard error, at the end, each participant's money in cents, and \
            without a log the number of lines",
    },
];

/// The further options of a drill.
const DRILL: &'static [OptionRow] = &[
    OptionRow {
        name: "transfers",
        kind: Kind::Number,
        required: false,
        value_names: &["COUNT"],
        defaults: &["200"],
        help: "Transfers in each opening, 1 to 1024 and at most --places",
    },
    OptionRow {
        name: "openings",
        kind: Kind::Number,
        required: false,
        value_names: &["COUNT"],
        defaults: &["1"],
        help: "Number of openings, each from the books of the previous one, 1 to 10",
    },
    OptionRow {
        name: "script",
        kind: Kind::Text,
        required: false,
        value_names: &["FILE"],
        defaults: &[],
        help: "Writes a script for play, which leaves the books of the first opening, to this new \
            or empty file",
    },
];

/// The file that `log` reads.
const LOG: &'static [OptionRow] = &[OptionRow {
    name: "file",
    kind: Kind::Word,
    required: true,
    value_names: &["FILE"],
    defaults: &[],
    help: "File of the log",
}];

/// The options of `next`.
const NEXT: &'static [OptionRow] = &[
    OptionRow {
        name: "log",
        kind: Kind::Text,
        required: true,
        value_names: &["FILE"],
        defaults: &[],
        help: "Log of the hub to close; its lines are unchanged",
    },
    OptionRow {
        name: "to",
        kind: Kind::Text,
        required: true,
        value_names: &["FILE"],
        defaults: &[],
        help: "Log to make, which begins with the books",
    },
    OptionRow {
        name: "digest",
        kind: Kind::Text,
        required: false,
        value_names: &["HEX"],
        defaults: &[],
        help: "Digest that the first log must contain, 64 hexadecimal digits in lower case",
    },
    OptionRow {
        name: "positions",
        kind: Kind::Flag,
        required: false,
        value_names: &[],
        defaults: &[],
        help: "Begins a new chain: the second log has the positions alone, as fundings, and no \
            other history",
    },
];

/// The settings that `next` can change.
const CHANGES: &'static [OptionRow] = &[
    OptionRow {
        name: "participants",
        kind: Kind::Text,
        required: false,
        value_names: &["CODES"],
        defaults: &[],
        help: "Codes of all participants: those of the log in the same order, then those of who \
            joins",
    },
    OptionRow {
        name: "places",
        kind: Kind::Number,
        required: false,
        value_names: &["COUNT"],
        defaults: &[],
        help: "Transfers that each originator can have in one opening, at least the most that it \
            had in any",
    },
    OptionRow {
        name: "fundings",
        kind: Kind::Number,
        required: false,
        value_names: &["COUNT"],
        defaults: &[],
        help: "Fund and defund commands of each participant in one opening, at least the most \
            that it had in any",
    },
    OptionRow {
        name: "limit",
        kind: Kind::Number,
        required: false,
        value_names: &["MS"],
        defaults: &[],
        help: "Maximum execution time, in milliseconds; can change only if the books have no \
            forwarded transfer",
    },
    OptionRow {
        name: "margin",
        kind: Kind::Number,
        required: false,
        value_names: &["MS"],
        defaults: &[],
        help: "Cut-off for acceptance before the deadline, in milliseconds, 0 to limit - 1",
    },
    OptionRow {
        name: "ahead",
        kind: Kind::Number,
        required: false,
        value_names: &["MS"],
        defaults: &[],
        help: "How far a time stamp may be after the clock reading, in milliseconds, 0 to 60000",
    },
    OptionRow {
        name: "ceiling",
        kind: Kind::Number,
        required: false,
        value_names: &["CENTS"],
        defaults: &[],
        help: "Maximum amount of one command, in cents, at least the largest of the books",
    },
    OptionRow {
        name: "base",
        kind: Kind::Number,
        required: false,
        value_names: &["MS"],
        defaults: &[],
        help: "Earliest moment, in milliseconds; with --positions, after all time stamps of the \
            books, 1 ms after the last one if not given",
    },
];

/// The files that `audit` reads.
const AUDIT: &'static [OptionRow] = &[OptionRow {
    name: "files",
    kind: Kind::Words,
    required: true,
    value_names: &["LOG"],
    defaults: &[],
    help: "Files of the logs, the oldest first",
}];

/// The fault that `explain` explains.
const EXPLAIN: &'static [OptionRow] = &[OptionRow {
    name: "fault",
    kind: Kind::Word,
    required: true,
    value_names: &["FAULT"],
    defaults: &[],
    help: "Number of the fault, 1 to 30, or its name",
}];
