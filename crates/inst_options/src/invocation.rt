//! The tasks that a command line can ask for.
use crate::setting_changes::SettingChanges;
use inst_settings::Settings;

/// The log of a run.
#[derive(Clone, Copy)]
pub struct LogOptions<'a> {
    /// The log's file.
    pub path: &'a str,
    /// To how many of the log's lines the client has the replies; `None`: to all.
    pub told: Option<u64>,
    /// `true` if the log must exist: `--resume`, `--digest` or a `--told` above 0 is given.
    pub resume: bool,
    /// A digest that the log must contain, 64 lower-case hexadecimal digits.
    pub digest: Option<&'a str>,
}

/// The logs of a next opening, and its settings.
#[derive(Clone, Copy)]
pub struct NextOptions<'a> {
    /// The log of the hub to close.
    pub from: &'a str,
    /// The log that begins with the books.
    pub to: &'a str,
    /// A digest that the first log must contain, 64 lower-case hexadecimal digits.
    pub digest: Option<&'a str>,
    /// `true` if only positions are carried, into a new chain of logs.
    pub positions: bool,
    /// What changes.
    pub changes: SettingChanges<'a>,
}

/// The task that the words of a command line ask for.
#[derive(Drop)]
pub enum Invocation<'a> {
    /// Answers commands with a hub of these settings, with follow-ups after each. With or without a
    /// log; the last field says if a summary is printed at the end.
    Run(Settings, Option<LogOptions<'a>>, bool),
    /// Plays a script of steps, with the same fields.
    Play(Settings, Option<LogOptions<'a>>, bool),
    /// Drills a hub with threads: the number of transfers in each opening, the number of openings,
    /// and a file for the script of a run that explains the first opening.
    Drill(Settings, u16, u8, Option<&'a str>),
    /// Reports the lines that no hub of these settings takes.
    Check(Settings),
    /// Prints the settings and the number of lines of the log of this name.
    Log(&'a str),
    /// Closes the hub of a log, and begins another log with its books.
    Next(NextOptions<'a>),
    /// Audits the logs of these names, the oldest first.
    Audit(Vec<&'a str>),
    /// Explains the fault of this number or name.
    Explain(&'a str),
}
