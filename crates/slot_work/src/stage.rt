use fact_minimise::Minimise;
use hol_kernel::Proven;
use race_core::Outcome;
use text_kit::Rows;

/// How far the work on the bytes of a child is.
#[derive(Drop)]
pub enum Stage {
    /// the bytes weren't looked at yet
    Begun,
    /// the used facts are found, and are being minimised
    Minimising { used: Rows<u32>, minimise: Minimise },
    /// there was an outcome
    Over,
}

/// What a turn comes to.
#[derive(Drop)]
pub enum Next {
    Goes(Stage),
    Ends(Outcome<Proven>),
}
