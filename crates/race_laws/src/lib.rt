//! What a finished race tells of its slots: laws of histories and of right ends.
#![tactic(auto)]

mod laws;

pub use laws::{heard_slots_are_answered, unwon_sound_slots_were_heard, winner_has_the_proof};
