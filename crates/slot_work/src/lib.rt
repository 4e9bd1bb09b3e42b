//! What the bytes of a child are worth: the facts that its proof used, replayed by the search, minimised and proved in the kernel.
#![tactic(auto)]

mod job;
mod laws;
mod leaves;
mod proving;
mod replayed;
mod replaying;
mod searches;
mod seeing;
mod slot;
mod stage;
mod task;
mod turns;
mod using;
mod work;

pub use hol_kernel::Proven;
pub use job::Job;
pub use laws::key_tells;
pub use replayed::Replayed;
pub use replaying::{replay, replay_facts};
pub use seeing::{goal_fits, visible};
pub use task::SlotTask;
