// What has a number: the things of a list, and what tells which of them is meant.
ghost use Rattle.std.specs.Prelude.{◌≡◌, ℕ};

use cm_base::Pid;

/// What has a number.
pub trait Numbered {
    ghost number: { Self → ℕ };

    /// The number.
    fn number(&self) -> u64
        ensures { result ≡ number self.now };
}

impl Numbered for u64 {
    ghost number = { λ n. n };

    fn number(&self) -> u64 {
        *self
    }
}

impl Numbered for Pid {
    ghost number = { λ pid. pid };

    fn number(&self) -> u64 {
        let pid = *self;
        u64::from(pid.number())
    }
}
