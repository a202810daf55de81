ghost use Rattle.std.specs.Prelude.{◌≡◌, ◌↔◌, IsTrue, Contains};
ghost use Rattle.mem_desk.specs.Memory.{next};

/// The kinds of calls that can be made to fail.
#[derive(Clone, Copy, Debug, PartialEq, Eq)]
pub enum Call {
    /// [`Desk::open_in`].
    OpenIn,
    /// [`Desk::read`].
    Read,
    /// [`Desk::create`].
    Create,
    /// [`Desk::write`].
    Write,
    /// [`Desk::say`].
    Say,
}

/// Whether this call, by its kind and number, is among the failing ones.
pub fn is_failing(fails: &[(Call, u32)], call: Call, number: u64) -> bool
    ensures { IsTrue result ↔ Contains fails.now (call, number) }
{
    fails
        .iter()
        .any(|f| f.0 == call && u64::from(f.1) == number)
}

/// A count, one up; at its last value it stands still.
pub fn one_more(count: u64) -> u64
    ensures { result ≡ next count }
{
    count.saturating_add(1)
}
