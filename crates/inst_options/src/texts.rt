//! Texts of the help that aren't in the table of options.

/// The allowed participants.
pub(crate) const PARTICIPANTS: &str =
    "1 to 256 different codes of 8 or 11 characters of A-Z 0-9, with commas between them";

/// The form of a digest.
pub(crate) const DIGEST: &str = "64 hexadecimal digits in lower case";

/// The long description of `run`.
pub(crate) const RUN: &str = "\
Answers each command on standard input with one line on standard output

A command is one line, with the participant, `who`, and the clock reading, `at`. A command and its reply:
  {\"at\":0,\"cents\":50000,\"cmd\":\"fund\",\"ref\":\"F1\",\"who\":\"AAAADEFF\"}
  {\"ref\":\"F1\",\"reply\":\"done\"}
docs/formats.md has all commands, replies and refusals.";

/// The long description of `play`.
pub(crate) const PLAY: &str = "\
Answers each line of a script on standard input with one line on standard output, without follow-ups

A line is a command, as for `run`, or a step: `deliver`, `learn` or `expire`. The hub takes no other step. A step and
its reply:
  {\"from\":\"AAAADEFF\",\"place\":0,\"step\":\"deliver\",\"who\":\"BBBBFRPP\"}
  {\"new\":true,\"reply\":\"step\"}
docs/formats.md has all commands, step lines, replies and refusals.";

/// The long description of `check`.
pub(crate) const CHECK: &str = "\
Checks the commands on standard input without answering them, and reports the invalid ones

All lines are read, and none is answered. For each line that a hub of these settings refuses while it reads the line,
one line goes to standard output:
  line 3: fault 4 BadAmount in \"cents\"
The field is missing or wrong; `inst_main explain BadAmount` explains the fault. If all lines are valid, nothing is
written. A script for `play` can't be checked, since its steps aren't commands.";

/// The long description of `log`.
pub(crate) const LOG: &str = "\
Prints a log's settings, its number of lines and its last digest

These lines go to standard output; standard input isn't read, and the log is unchanged:
  settings S    the first line of the log: its settings, and if its lines are a run's or a play's
  lines N       the number of its lines, without settings, books and marks
  digest D      the digest of the last mark; only if the log has marks (version 2)";

/// The long description of `next`.
pub(crate) const NEXT: &str = "\
Closes the hub of a log, and makes the log of the next opening, which begins with its books

The log that --log names is read, its lines are answered again without output, and the hub is closed: each participant
learns the outcomes of its transfers. The log that --to names is made, with the settings and the books, one event a
line. A run with that log continues: pending transfers stay pending, identifiers stay taken, and decided transfers
free their places. Nothing is written to standard output, standard input isn't read, and the lines of the first log are
unchanged.

The settings are those of the first log, with what is given here in their place. A change that its books don't allow is
refused, and no log is made.

With --positions the second log begins a new chain. It has no history but one funding, or a few, for each participant
with money, up to its position. All settings may change, banks with a position of 0 may leave, and openings count anew.
No transfer may be pending. The base is after every time stamp of the first log's books, so none of its submissions can
be taken again; references of fundings are free again.";

/// The long description of `audit`.
pub(crate) const AUDIT: &str = "\
Audits logs that follow one another, the oldest first, and prints one line for each

Each log is verified as a start does, and its lines are answered again without output. Each log but the first must begin
with what `next` makes from the one before it, under its own settings: with the same books, or as a new chain with the
same positions and the digest of the log before. One line for each log goes to standard output:
  NAME: lines N, net funding C, digest D
N is the number of its lines, C the net funding of all participants in cents, and D the digest of its last mark, `none`
for a log without marks. If a log is refused or doesn't follow the one before it, nothing is written there, and a line
on standard error names it. Standard input isn't read, no log is locked, and no file changes. A log is read into memory.";

/// The long description of `explain`.
pub(crate) const EXPLAIN: &str = "\
Prints what a refusal or a fault usually means, and what to do

A reply that refuses a line has the number and the name of a refusal; a line such as `fault 17 ReadFault` on standard
error has those of a fault. Give either one: `inst_main explain 13` or `inst_main explain Shortage`. Standard input
isn't read.";

/// The long description of `drill`.
pub(crate) const DRILL: &str = "\
Drills a hub with threads that race at a deadline, and prints four lines for each opening

In each opening participant 0 is funded, and two threads submit its transfers of 100 cents to participant 1. Two
threads confirm them at the last moment in time, while a third one sweeps at their deadline: each transfer is accepted
or times out. Then the hub is closed, steps of a hub in one thread are rebuilt from its books, and these steps must
leave the same books. Standard input isn't read. Standard output gets four lines for each opening:
  jobs J answered R    J jobs were queued, and R calls were answered
  decided D            D transfers of this opening have an outcome in the books
  disagree X           X outcomes that were seen differ from the books
  net N sum S          the net funding and the sum of all positions, in cents
The first opening begins empty, and each later one with the books of the previous one. --script writes the steps of the
first one as lines for `play`, to a new or empty file.";

/// The end of the help of `run`, `play`, `check` and `drill`.
pub(crate) const MOMENTS: &str = "\
Moments are in milliseconds, of a clock that all participants share; the hub reads no clock. They begin at the base
and end 2^41 - 1 ms after it. Unix time in milliseconds fits base 0 until 2039-09-07. A hub that runs past that needs a
base near its start, such as --base 1767225600000, which is 2026-01-01 00:00 UTC.

Exit status:
  0  the input was read to its end, or the drill is done
  2  the command line or the settings are wrong, or the log or the script file is refused
  3  fault 14, 17, 18, 19 (of the log or the script file), 28 (of the log) or 29 (of a drill) ended it";

/// The end of the program's help.
pub(crate) const PROGRAM: &str = "\
Exit status:
  0  the input was read to its end, and each line was checked or has its reply, which may be a refusal;
     or the drill is done, and no outcome that was seen differs from the books;
     or the log of the next opening was made;
     or the contents of a log, an audit, an explanation, help or the version was printed
  2  the command line or the settings are wrong, or a log or a script file is refused; no input was read
  3  a fault ended the task; standard error has its line, such as `fault 17 ReadFault`

`inst_main run --help` has the options. README.md and docs/formats.md describe lines, replies and refusals.";
