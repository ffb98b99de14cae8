// The errors that a call in a log may answer, and their names (errno(3)).
ghost use Rattle.std.specs.Prelude.{◌≡◌, ◌==◌, bytes_eq, filter, find, length};
ghost use Rattle.cm_base.specs.Names.{errno_name, errno_of, errnos};

/// An error that a call in a log answers (errno(3)). EPERM and ENOSPC come by the rules of the calls alone; EINVAL, EACCES
/// of execve and EAGAIN of births by the rules and from outside them; the other twelve from outside alone, as where
/// memory runs out or a file can't be read.
#[derive(Clone, Copy, Debug, PartialEq, Eq)]
pub enum Errno {
    EPERM,
    EINVAL,
    ENOSPC,
    ENOMEM,
    EAGAIN,
    EINTR,
    EFAULT,
    EIO,
    ENOENT,
    EACCES,
    ENOTDIR,
    ELOOP,
    ENAMETOOLONG,
    E2BIG,
    ENOEXEC,
    ETXTBSY,
    ELIBBAD,
}

impl Errno {
    /// Its name, in capitals, as `EPERM`.
    pub fn name(self) -> &'static str
        ensures { result.now ≡ errno_name self }
    {
        match self {
            Errno::EPERM => "EPERM",
            Errno::EINVAL => "EINVAL",
            Errno::ENOSPC => "ENOSPC",
            Errno::ENOMEM => "ENOMEM",
            Errno::EAGAIN => "EAGAIN",
            Errno::EINTR => "EINTR",
            Errno::EFAULT => "EFAULT",
            Errno::EIO => "EIO",
            Errno::ENOENT => "ENOENT",
            Errno::EACCES => "EACCES",
            Errno::ENOTDIR => "ENOTDIR",
            Errno::ELOOP => "ELOOP",
            Errno::ENAMETOOLONG => "ENAMETOOLONG",
            Errno::E2BIG => "E2BIG",
            Errno::ENOEXEC => "ENOEXEC",
            Errno::ETXTBSY => "ETXTBSY",
            Errno::ELIBBAD => "ELIBBAD",
        }
    }

    /// The error of that name. None exactly where it is none of the 17 names.
    pub fn from_name(name: &[u8]) -> Option<Errno>
        ensures { result ≡ errno_of name.now }
    {
        named(of_length(name.len()), name)
    }
}

/// The first of these errors that has the name.
fn named(errors: &[Errno], name: &[u8]) -> Option<Errno>
    ensures { result ≡ find (λ e. bytes_eq (errno_name e) name.now) errors.now }
{
    errors.iter().copied().find(|e| e.name().as_bytes() == name)
}

/// The errors whose names have so many bytes, in their order, so that a name is held against few.
fn of_length(size: usize) -> &'static [Errno]
    ensures { result.now ≡ filter (λ e. length (errno_name e) == size) errnos }
{
    match size {
        3 => &[Errno::EIO],
        5 => &[Errno::EPERM, Errno::EINTR, Errno::ELOOP, Errno::E2BIG],
        6 => &[
            Errno::EINVAL,
            Errno::ENOSPC,
            Errno::ENOMEM,
            Errno::EAGAIN,
            Errno::EFAULT,
            Errno::ENOENT,
            Errno::EACCES,
        ],
        7 => &[
            Errno::ENOTDIR,
            Errno::ENOEXEC,
            Errno::ETXTBSY,
            Errno::ELIBBAD,
        ],
        12 => &[Errno::ENAMETOOLONG],
        _ => &[],
    }
}
