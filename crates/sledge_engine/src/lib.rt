//! The commands of `sledge`: words in, a report and an exit status out.
#![tactic(auto)]

mod check;
mod choice;
mod commands;
mod contest;
mod fetching;
mod filter;
mod finished;
mod generate;
mod laws;
mod metis;
mod opening;
mod orders;
mod posing;
mod preparing;
mod problem;
mod reports;
mod running;
mod seen;
mod slices;
mod tables;
mod texts;
mod top;
mod trial;
mod used;
mod visible;
mod words;

pub use contest::Contest;
pub use finished::{Done, Finished};
pub use laws::{posed_goals_are_not_refused, status_tells_found};
pub use running::run;
pub use top::answer;
