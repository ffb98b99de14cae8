// Which calls of a device in memory are to fail.
ghost use Rattle.std.specs.Prelude.{◌≡◌};

/// The numbers of the calls that are to fail, and how many calls were made. Calls count from 1, and
/// their number stays at 2^64 - 1.
#[derive(Drop)]
pub(crate) struct Turns {
    fail: Vec<u64>,
    calls: u64,
}

impl Turns {
    ghost use Rattle.cm_io.specs.Turns.{is_due, TakesTurn};

    pub(crate) fn new(fail: Vec<u64>) -> Turns
        ensures fail { result.fail ≡ fail }
        ensures calls { result.calls ≡ 0 }
    {
        Turns { fail, calls: 0 }
    }

    /// Whether the next call is to fail.
    pub(crate) fn is_due(&self) -> bool
        ensures { result ≡ is_due self.now }
    {
        self.fail.contains(&self.calls.saturating_add(1))
    }

    /// Counts a call.
    pub(crate) fn count(&mut self)
        ensures { TakesTurn self.old self.new }
    {
        self.calls = self.calls.saturating_add(1);
    }
}
