use hol_kernel::Proven;
use race_core::{Event, SlotEnd};
use race_outside::Launcher;
use text_kit::Rows;

/// A finished race.
#[derive(Debug, Drop)]
pub struct Finished {
    /// Its history.
    pub events: Rows<Event>,
    /// What each slot kept, and how it ended.
    pub slots: Rows<SlotEnd<Proven>>,
    /// The slot of the first accepted proof.
    pub winner: Option<u32>,
    /// The moment from which on the limit of time has passed, where there was a limit.
    pub until: Option<u64>,
}

/// What `run` gives back.
#[derive(Drop)]
pub struct Done<L: Launcher> {
    /// The exit status.
    pub status: u8,
    /// The launcher that it was given.
    pub launcher: L,
    /// The race, where `prove` or `drill` finished one.
    pub race: Option<Finished>,
}
