// What the program answers.
ghost use Rattle.std.specs.Prelude.{◌≡◌};
ghost use Rattle.cm_base.specs.Statuses.{status_number};

/// The answer of a command, and of the program by its number (choice).
#[derive(Clone, Copy, Debug, PartialEq, Eq)]
pub enum Status {
    /// 0: all was read to its end, and the answer is accepted, yes, holds, confirmed or drilled.
    Accepted,
    /// 1: an audit's answer is no.
    No,
    /// 2: an audit's answer is undecided.
    Undecided,
    /// 3: an event of the log is no step.
    Impossible,
    /// 4: the world's text has a fault.
    BadWorld,
    /// 5: a line of the log has a fault.
    BadLog,
    /// 6: the words are none of the forms.
    Usage,
    /// 7: a file could not be read.
    ReadFault,
    /// 8: the report could not be written.
    WriteFault,
    /// 9: a limit was exceeded.
    Limit,
    /// 10: out of memory. No clause ties it to memory that was refused.
    NoMemory,
    /// 11: a certificate or a run was refused.
    Refused,
    /// 12: the query names no live process, no right or no space.
    BadQuery,
}

impl Status {
    /// Its number, 0 to 12.
    pub fn number(&self) -> u8
        ensures { result ≡ status_number self.now }
    {
        match self {
            Status::Accepted => 0,
            Status::No => 1,
            Status::Undecided => 2,
            Status::Impossible => 3,
            Status::BadWorld => 4,
            Status::BadLog => 5,
            Status::Usage => 6,
            Status::ReadFault => 7,
            Status::WriteFault => 8,
            Status::Limit => 9,
            Status::NoMemory => 10,
            Status::Refused => 11,
            Status::BadQuery => 12,
        }
    }
}
