use race_core::{Event, SlotEnd};
use race_outside::Launcher;
use text_kit::Rows;

/// What a finished race leaves.
#[derive(Drop)]
pub struct Raced<L: Launcher, P: Drop> {
    pub launcher: L,
    /// Its history.
    pub events: Rows<Event>,
    /// What each slot kept, and how it ended.
    pub slots: Rows<SlotEnd<P>>,
    /// The slot of the first accepted proof.
    pub winner: Option<u32>,
    /// The moment from which on the limit of time has passed, where there was a limit.
    pub until: Option<u64>,
}
