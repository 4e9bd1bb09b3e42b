ghost use Rattle.std.specs.Prelude.{◌≡◌};
ghost use Rattle.race_core.specs.Verdicts.{verdict_of};

/// How a slot ended, without what it carries.
#[derive(Clone, Copy, Debug, PartialEq, Eq)]
pub enum Verdict {
    /// Its proof was accepted.
    Proved,
    /// Its child could not be started.
    NoStart,
    /// What its child printed was lost.
    Lost,
    /// The pipe from its child failed.
    ReadFault,
    /// Its child printed too many bytes.
    TooLong,
    /// Its child told no status.
    NoStatus,
    /// Its child told no proof.
    NoProof,
    /// Its child's proof can't be read.
    BadText,
    /// The replay found that its facts don't suffice.
    Saturated,
    /// The replay's budget was spent.
    Spent,
    /// The limit of time passed first.
    TimedOut,
    /// Another slot had won.
    Cancelled,
    /// There was no memory for it.
    NoMemory,
}

/// How a slot ended, with what it carries: a proof of type `P`, or where the fault is.
#[derive(Debug, Drop)]
pub enum Outcome<P> {
    /// The proof that was accepted.
    Proved(P),
    /// Its child could not be started.
    NoStart,
    /// What its child printed was lost; in its place came the pipe of this id.
    Lost { stray: u64 },
    /// The pipe from its child failed.
    ReadFault,
    /// Its child printed too many bytes.
    TooLong,
    /// Its child told no status.
    NoStatus,
    /// Its child told no proof.
    NoProof,
    /// Its child's proof can't be read from this byte on.
    BadText { at: u64 },
    /// The replay found that its facts don't suffice.
    Saturated,
    /// The replay's budget was spent.
    Spent,
    /// The limit of time passed first.
    TimedOut,
    /// Another slot had won.
    Cancelled,
    /// There was no memory for it.
    NoMemory,
}

impl<P> Outcome<P> {
    /// The verdict of the outcome: its kind, without what it carries.
    pub fn verdict(&self) -> Verdict
        ensures { result ≡ verdict_of self.now }
    {
        match self {
            Outcome::Proved(_) => Verdict::Proved,
            Outcome::NoStart => Verdict::NoStart,
            Outcome::Lost { .. } => Verdict::Lost,
            Outcome::ReadFault => Verdict::ReadFault,
            Outcome::TooLong => Verdict::TooLong,
            Outcome::NoStatus => Verdict::NoStatus,
            Outcome::NoProof => Verdict::NoProof,
            Outcome::BadText { .. } => Verdict::BadText,
            Outcome::Saturated => Verdict::Saturated,
            Outcome::Spent => Verdict::Spent,
            Outcome::TimedOut => Verdict::TimedOut,
            Outcome::Cancelled => Verdict::Cancelled,
            Outcome::NoMemory => Verdict::NoMemory,
        }
    }
}
