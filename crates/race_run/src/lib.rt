//! Runs a race: reads the pipes of its children, replays what they printed, and settles each slot.
#![tactic(auto)]

mod back;
mod ending;
mod giving;
mod joining;
mod judged;
mod laws;
mod owned;
mod raced;
mod reading;
mod reaping;
mod replay;
mod seat;
mod settling;
mod sweeping;
mod taken;
mod taking;
mod watching;
mod whole;
mod worker;

pub use joining::race;
pub use laws::unlost_slots_are_not_lost;
pub use raced::Raced;
pub use reading::drain;
pub use sweeping::sweep;
pub use watching::watch;
pub use whole::run_race;
pub use worker::work;
