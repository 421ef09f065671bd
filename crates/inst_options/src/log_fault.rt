//! The faults of a run's log.
ghost use Rattle.std.specs.Prelude.{◌≡◌};
ghost use Rattle.inst_options.specs.LogFault.{log_fault_number, log_fault_name, status_of_log};

/// A fault of a run's log. The numbers follow those of the hub's faults.
#[derive(Clone, Copy, Debug, PartialEq, Eq)]
pub enum LogFault {
    /// The disk failed or is full, or the file can't be opened.
    DiskFault,
    /// The log begins with other settings than the options give, or with books in another form, or
    /// with fewer lines of books than its first line says.
    OtherSettings,
    /// The file isn't a log, or there is no log where one must be.
    NoLog,
    /// `--told` is more than the number of the log's lines.
    ToldAhead,
    /// Another program has the log open.
    LogInUse,
    /// A hub can't open from the books that the log begins with.
    BadBooks,
    /// The books were opened from 500 times, so there is no next opening.
    LastOpening,
    /// The log's bytes aren't those that the hub wrote.
    DamagedLog,
    /// The log doesn't contain the digest that the options give.
    OtherDigest,
    /// Another program truncated the log or wrote to it while the hub ran.
    ChangedLog,
}

impl LogFault {
    /// Returns the number on the program's fault line, 19 to 28.
    pub fn number(self) -> u8
        ensures { result ≡ log_fault_number self }
    {
        self as u8 + 19
    }

    /// Returns the name on the program's fault line.
    pub fn name(self) -> &'static str
        ensures { result.now ≡ log_fault_name self }
    {
        match self {
            LogFault::DiskFault => "DiskFault",
            LogFault::OtherSettings => "OtherSettings",
            LogFault::NoLog => "NoLog",
            LogFault::ToldAhead => "ToldAhead",
            LogFault::LogInUse => "LogInUse",
            LogFault::BadBooks => "BadBooks",
            LogFault::LastOpening => "LastOpening",
            LogFault::DamagedLog => "DamagedLog",
            LogFault::OtherDigest => "OtherDigest",
            LogFault::ChangedLog => "ChangedLog",
        }
    }

    /// Returns the exit status: 3 if the disk failed or the log changed during a run, else 2, since
    /// the log was refused.
    pub fn status(self) -> u8
        ensures { result ≡ status_of_log self }
    {
        match self {
            LogFault::DiskFault | LogFault::ChangedLog => 3,
            _ => 2,
        }
    }
}
