//! A race of slots as a machine: which events are legal, and what the race is after them.
#![tactic(auto)]

mod event;
mod laws;
mod outcome;
mod race;
mod slot;
#[cfg(test)]
mod tests;

pub use event::Event;
pub use laws::{
    cancelled_follow_a_win, ids_follow_launches, limit_passes_once, overdue_where_the_limit_passed,
    reaped_before_settled, settled_slots_passed_once, slots_pass_in_order,
    timed_out_behind_the_limit, winner_is_first_proved,
};
pub use outcome::{Outcome, Verdict};
pub use race::Race;
pub use slot::{Kept, Order, SlotEnd, SlotState};
