use crate::outcome::Verdict;

/// What happens in a race. Each names its slot, but for `Expire`, which is about the whole race.
#[derive(Clone, Copy, Debug, PartialEq, Eq)]
pub enum Event {
    /// The slot's child was started.
    Launch(u32),
    /// The slot's child could not be started.
    NoStart(u32),
    /// There was no memory to start the slot's child.
    NoRoom(u32),
    /// The slot's child was waited for.
    Reap(u32),
    /// The slot ended with this verdict.
    Settle(u32, Verdict),
    /// The slot is not started any more.
    Skip(u32),
    /// The limit of time has passed at this moment, in milliseconds.
    Expire(u64),
}
