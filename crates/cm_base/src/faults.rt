// The faults that a world's text and a line of a log may have, and the tables of a world's text (choice). Each is one
// table, from which the printed word comes.
ghost use Rattle.std.specs.Prelude.{◌≡◌};
ghost use Rattle.cm_base.specs.Faults.{table_name, world_fault_word, line_fault_word};

/// A table of a world's text.
#[derive(Clone, Copy, Debug, PartialEq, Eq)]
pub enum Table {
    /// The whole text.
    Whole,
    /// The user namespaces.
    Space,
    /// The mounts.
    Mount,
    /// The files.
    File,
    /// The processes.
    Process,
    /// The filter of calls.
    Filter,
}

impl Table {
    /// Its name in a report, as `space`.
    pub fn name(self) -> &'static str
        ensures { result.now ≡ table_name self }
    {
        match self {
            Table::Whole => "whole",
            Table::Space => "space",
            Table::Mount => "mount",
            Table::File => "file",
            Table::Process => "process",
            Table::Filter => "filter",
        }
    }
}

/// A fault of a world's text. The order is that in which the faults of one row are told.
#[derive(Clone, Copy, Debug, PartialEq, Eq)]
pub enum WorldFault {
    /// The text is no TOML.
    Toml,
    /// A key is none of the table's.
    UnknownKey,
    /// A key that the table must have is missing, or one of the two maps of a mount.
    MissingKey,
    /// A value isn't of the kind that is asked for, or is another word than those that are.
    WrongType,
    /// A whole number is out of its range.
    BadNumber,
    /// A name, or a path, breaks its rule.
    BadName,
    /// A name, a path or a pid stands in an earlier row, or a mount is named `root`.
    TwiceNamed,
    /// The parent is no earlier row.
    NoSuchParent,
    /// No space of that name is declared.
    NoSuchSpace,
    /// No mount of that name is declared.
    NoSuchMount,
    /// The interpreter is no earlier row without an interpreter.
    NoInterpreter,
    /// A list of extents is no map (user_namespaces(7)).
    BadMap,
    /// An extent of a space doesn't lie in one extent of its parent's map.
    NotMapped,
    /// The mode is none of one to four octal digits.
    BadMode,
    /// A text is no set of capabilities, or no attribute of a file.
    BadCaps,
    /// The effective set isn't within the permitted one, or the ambient set within the permitted and inheritable ones.
    NotIncluded,
    /// The filter names no call.
    NoSuchCall,
    /// A space would be nested too deep (user_namespaces(7)).
    TooDeep,
}

impl WorldFault {
    /// Its word in a report, as `UnknownKey`.
    pub fn word(self) -> &'static str
        ensures { result.now ≡ world_fault_word self }
    {
        match self {
            WorldFault::Toml => "Toml",
            WorldFault::UnknownKey => "UnknownKey",
            WorldFault::MissingKey => "MissingKey",
            WorldFault::WrongType => "WrongType",
            WorldFault::BadNumber => "BadNumber",
            WorldFault::BadName => "BadName",
            WorldFault::TwiceNamed => "TwiceNamed",
            WorldFault::NoSuchParent => "NoSuchParent",
            WorldFault::NoSuchSpace => "NoSuchSpace",
            WorldFault::NoSuchMount => "NoSuchMount",
            WorldFault::NoInterpreter => "NoInterpreter",
            WorldFault::BadMap => "BadMap",
            WorldFault::NotMapped => "NotMapped",
            WorldFault::BadMode => "BadMode",
            WorldFault::BadCaps => "BadCaps",
            WorldFault::NotIncluded => "NotIncluded",
            WorldFault::NoSuchCall => "NoSuchCall",
            WorldFault::TooDeep => "TooDeep",
        }
    }
}

/// A fault of a line of a log. The order is that in which the faults of one line are told.
#[derive(Clone, Copy, Debug, PartialEq, Eq)]
pub enum LineFault {
    /// The line doesn't begin with a pid.
    Pid,
    /// No call has the name.
    Call,
    /// The line isn't of the shape of a call with a result.
    Shape,
    /// The number of arguments is none that the call may have.
    Count,
    /// The argument of that number, from 1 on, is the first that isn't of its kind.
    Argument(u32),
    /// The result is none that the call may have.
    Outcome,
    /// A thread's execve took the place of another one (strace(1)).
    Superseded,
    /// A call is resumed that wasn't begun, or begun while another is (strace(1)).
    Unfinished,
    /// A descriptor is used in a way that can't be followed.
    Descriptor,
}

impl LineFault {
    /// Its word in a report, as `result`; that of an argument without its number.
    pub fn word(self) -> &'static str
        ensures { result.now ≡ line_fault_word self }
    {
        match self {
            LineFault::Pid => "pid",
            LineFault::Call => "call",
            LineFault::Shape => "shape",
            LineFault::Count => "count",
            LineFault::Argument(_) => "argument",
            LineFault::Outcome => "result",
            LineFault::Superseded => "superseded",
            LineFault::Unfinished => "unfinished",
            LineFault::Descriptor => "descriptor",
        }
    }
}
