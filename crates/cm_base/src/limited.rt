// The limits of what is read and of what is asked about, one table (choice).
ghost use Rattle.std.specs.Prelude.{◌≡◌};
ghost use Rattle.cm_base.specs.Limited.{limit_name, limit_number};

/// A limit that was exceeded: by its variant, its name and the number that a count may reach.
#[derive(Clone, Copy, Debug, PartialEq, Eq)]
pub enum Limited {
    /// The bytes of a world's text.
    World,
    /// The bytes of a log.
    Log,
    /// The bytes of a line of a log, without its LF.
    Line,
    /// The live processes.
    Processes,
    /// The user namespaces, the initial one among them.
    Spaces,
    /// The mounts, `root` among them.
    Mounts,
    /// The declared files.
    Files,
    /// The groups of one list.
    Groups,
    /// The lines of a log that wait for their process to be born.
    Held,
    /// The descriptors of a log that are followed.
    Descriptors,
    /// The processes of a family that is asked about.
    Family,
    /// The bytes of a certificate's text.
    Certificate,
    /// The bytes of the text of a run.
    Run,
}

impl Limited {
    /// Its name in a report, as `processes`.
    pub fn name(self) -> &'static str
        ensures { result.now ≡ limit_name self }
    {
        match self {
            Limited::World => "world",
            Limited::Log => "log",
            Limited::Line => "line",
            Limited::Processes => "processes",
            Limited::Spaces => "spaces",
            Limited::Mounts => "mounts",
            Limited::Files => "files",
            Limited::Groups => "groups",
            Limited::Held => "held",
            Limited::Descriptors => "descriptors",
            Limited::Family => "family",
            Limited::Certificate => "certificate",
            Limited::Run => "run",
        }
    }

    /// The number that the count may reach: the limit is hit where the count exceeds it.
    pub fn number(self) -> u64
        ensures { result ≡ limit_number self }
    {
        match self {
            Limited::World | Limited::Line => 1_048_576,
            Limited::Log => 1_099_511_627_776,
            Limited::Certificate | Limited::Run => 67_108_864,
            Limited::Processes | Limited::Files | Limited::Held => 4096,
            Limited::Spaces | Limited::Family => 256,
            Limited::Mounts => 64,
            Limited::Groups => 1024,
            Limited::Descriptors => 65_536,
        }
    }
}
