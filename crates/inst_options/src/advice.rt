//! The usual meaning of each refusal and fault, and what to do. docs/formats.md has the same words.
use crate::any_fault::AnyFault;
use crate::log_fault::LogFault;
use inst_base::Fault;

impl AnyFault {
    /// Returns what the fault usually means.
    pub fn meaning(self) -> &'static str {
        match self {
            AnyFault::Hub(fault) => meaning_of(fault),
            AnyFault::Log(fault) => meaning_of_log(fault),
            AnyFault::NoInterleaving => {
                "\
                no single-threaded run was found that leaves a drill's books; the hub may be broken"
            }
            AnyFault::PendingTransfer => {
                "\
                `next --positions` found a pending transfer, which a new chain can't carry; the \
                line before the fault names it, with its deadline"
            }
            AnyFault::BrokenChain => {
                "\
                a log of `audit` doesn't begin as `next` begins one from the log before it: it is \
                of another chain, or a log between them is missing or was changed since"
            }
        }
    }

    /// Returns what to do.
    pub fn advice(self) -> &'static str {
        match self {
            AnyFault::Hub(fault) => advice_of(fault),
            AnyFault::Log(fault) => advice_of_log(fault),
            AnyFault::NoInterleaving => {
                "report it with the command line, the version and the machine"
            }
            AnyFault::PendingTransfer => {
                "\
                resume the log, let the transfer end (a command at its deadline times it out), and \
                run `next` again"
            }
            AnyFault::BrokenChain => {
                "name all logs of the chain, the oldest first; restore a changed one from a copy"
            }
        }
    }
}

fn meaning_of(fault: Fault) -> &'static str {
    match fault {
        Fault::NotJson => {
            "\
            a quote or a bracket is missing; the line has two objects or none; it begins with a \
            byte order mark; a text isn't UTF-8"
        }
        Fault::BadField => {
            "\
            a name is misspelt or missing; an amount is a text, or has a fraction; a code isn't 8 \
            or 11 capital letters and digits, or a reason isn't 4; `max` or `count` is 0 or above \
            100"
        }
        Fault::BadIdentifier => {
            "\
            an identifier or a reference is empty, has more than 35 characters, or has one outside \
            the set, such as `_`, `#` or a letter with an accent"
        }
        Fault::BadAmount => { "the amount is 0 cents, or more than `--ceiling`" }
        Fault::BadMoment => {
            "\
            a clock reading or a time stamp is before `--base`, or is in microseconds; or the \
            deadline would be past the last moment"
        }
        Fault::UnknownParticipant => {
            "\
            a code isn't among `--participants`; the forms of 8 and of 11 characters are different \
            codes"
        }
        Fault::SelfTransfer => { "`to` is `who`" }
        Fault::UnknownTransfer => {
            "\
            `confirm`, `reject`: `from` or `id` is wrong, the transfer is for another participant, \
            its submission was refused, or in `play` it wasn't delivered; `investigate`: `who` \
            isn't the originator"
        }
        Fault::Duplicate => {
            "\
            the identifier is taken with another beneficiary, amount or time stamp; the reference \
            is taken with another amount, or by the other of `fund` and `defund`"
        }
        Fault::StampAhead => {
            "\
            the originator's clock is ahead of the one that `at` is read from by more than \
            `--ahead`, or the two have different units"
        }
        Fault::Expired => {
            "\
            `submit`: the line arrived at its deadline or later, so the time stamp is old or \
            wrong; `confirm`: too late to accept, but not timed out yet"
        }
        Fault::Full => {
            "\
            `submit`: all places of the originator are used, also by decided transfers; `fund`, \
            `defund`: all fundings of the participant are used"
        }
        Fault::Shortage => {
            "the amount is more than what is available; reserved money can't be spent"
        }
        Fault::Memory => { "an allocation failed: the process may not use more memory" }
        Fault::BadSettings => { "an option's value isn't allowed; nothing was read" }
        Fault::LineTooLong => {
            "\
            there is no newline between objects (lines may end with a carriage return alone), or \
            the line has large fields that the hub doesn't know"
        }
        Fault::ReadFault => {
            "\
            standard input is a directory or is closed, or a read failed; or, without `--log`, the \
            input has more than 1,000,000 lines or 4,294,967,296 bytes"
        }
        Fault::WriteFault => {
            "\
            the reader of the replies has exited (a closed pipe), standard output is closed, or \
            the disk is full"
        }
    }
}

fn meaning_of_log(fault: LogFault) -> &'static str {
    match fault {
        LogFault::DiskFault => {
            "\
            the log's folder doesn't exist, its disk is full or fails, the file may not be written \
            or grow, or it isn't a regular file with one name"
        }
        LogFault::OtherSettings => {
            "\
            an option has changed, or `play` was given a log of `run`; the two lines before the \
            fault show the log's settings and those of the options; if only `books` differs, lines \
            of books are missing or have another form"
        }
        LogFault::NoLog => {
            "\
            the file isn't a log; or there is no log, and `--resume`, `--digest`, `--told`, `log` \
            or `next` requires one"
        }
        LogFault::ToldAhead => {
            "\
            `--told` is more than the lines of the log: replies of another log were counted too, \
            or the log is an old copy"
        }
        LogFault::LogInUse => {
            "another program has the log open, or `next` was given one file twice"
        }
        LogFault::BadBooks => {
            "\
            lines of books after the log's settings were changed, or replaced by other lines"
        }
        LogFault::LastOpening => { "`next` was run on the 501st log in a row" }
        LogFault::DamagedLog => {
            "\
            bytes of the log were changed by something other than the hub, such as an editor, a \
            disk or a bad copy; no input was read, no reply written, and the file is unchanged"
        }
        LogFault::OtherDigest => {
            "\
            the log doesn't contain the digest that `--digest` gives: it is an older copy or \
            another log, or it was rolled back"
        }
        LogFault::ChangedLog => {
            "another program truncated or wrote to the log while the hub ran"
        }
    }
}

fn advice_of(fault: Fault) -> &'static str {
    match fault {
        Fault::NotJson => { "write one object a line, in UTF-8, with any JSON library" }
        Fault::BadField => {
            "\
            compare the line with the table of commands; amounts and moments are whole numbers \
            without quotes"
        }
        Fault::BadIdentifier => { "shorten it, or use other characters" }
        Fault::BadAmount => {
            "give the amount in cents; on a log, `next` takes a higher `--ceiling`"
        }
        Fault::BadMoment => {
            "\
            give moments in milliseconds; on a log, `next --positions` begins a new chain with \
            another `--base`"
        }
        Fault::UnknownParticipant => { "use a code that `--participants` has" }
        Fault::SelfTransfer => { "nothing: such a payment needs no hub" }
        Fault::UnknownTransfer => { "check the reply to the submission, and what `fetch` returned" }
        Fault::Duplicate => {
            "\
            use a new identifier or reference; to repeat a line whose reply was lost, send its \
            fields unchanged"
        }
        Fault::StampAhead => { "set the clocks; on a log, `next` takes a larger `--ahead`" }
        Fault::Expired => {
            "\
            submit with a new time stamp, and the same identifier if you like; the beneficiary may \
            still reject before the deadline"
        }
        Fault::Full => {
            "\
            on a log, run `next`, which also takes more `--places` and `--fundings`, at most 1,024"
        }
        Fault::Shortage => { "ask for the `position`; fund, or wait for outcomes" }
        Fault::Memory => {
            "\
            raise the process's memory limit; standard output holds a prefix of the replies, which \
            may end in mid-line"
        }
        Fault::BadSettings => {
            "set the option that the next line names to a value that it allows"
        }
        Fault::LineTooLong => {
            "\
            end each line with a newline (byte 10); leave out fields that the command doesn't need"
        }
        Fault::ReadFault => {
            "\
            each line that ended within the limits has its reply; give the input again; a longer \
            input needs `--log`, which has no such limits"
        }
        Fault::WriteFault => {
            "\
            a prefix of the replies was written; read all of them, or free disk space, and start \
            again; with a log, give `--told`"
        }
    }
}

fn advice_of_log(fault: LogFault) -> &'static str {
    match fault {
        LogFault::DiskFault => {
            "\
            no reply to the lines of the last read was written; fix the disk or the file, and \
            resume the log with `--told`"
        }
        LogFault::OtherSettings => {
            "\
            give the options that the log began with, or use a new log; for the books, see fault 24"
        }
        LogFault::NoLog => { "name another file; this one is unchanged, and none was made" }
        LogFault::ToldAhead => {
            "count only whole reply lines of the runs of this log; use the latest log"
        }
        LogFault::LogInUse => { "stop the other program first, or name another log" }
        LogFault::BadBooks => { "restore the log from a copy as `next` made it" }
        LogFault::LastOpening => { "begin a new chain with `next --positions`" }
        LogFault::DamagedLog => {
            "\
            restore the log from a copy, and compare its digest; or use the log of another replica"
        }
        LogFault::OtherDigest => { "use the latest log" }
        LogFault::ChangedLog => { "stop the other program, and resume the log with `--told`" }
    }
}
