use crate::contest::Contest;
use race_core::Order;
use text_kit::Rows;
use theory_reader::Theory;

/// What is told of a race.
#[derive(Drop)]
pub(crate) enum Telling {
    /// How each slot ended and who won, with the proof where it is to be shown.
    Prove(bool),
    /// That there are so many generated facts, how many each slice has chosen, and who won.
    Drill(u32, Rows<u64>),
}

/// A goal that is raced for, what the race is run with, and what is told of it.
#[derive(Drop)]
pub(crate) struct Trial {
    pub theory: Theory,
    pub goal: u32,
    pub contest: Contest,
    pub telling: Telling,
}

/// A race that is ready to be run: with the numbers of the facts that its goal may be proved from, and what the child of each
/// slot is started with.
#[derive(Drop)]
pub(crate) struct Entry {
    pub trial: Trial,
    pub visible: Rows<u32>,
    pub orders: Rows<Order>,
}

/// A race that words ask for, or the status of another answer whose text is put.
#[derive(Drop)]
pub(crate) enum Prepared {
    Race(Entry),
    Answered(u8),
}
