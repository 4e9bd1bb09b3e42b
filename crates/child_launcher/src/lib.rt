//! Real children: processes of the machine, started, fed, read, killed and waited for.
#![tactic(auto)]

mod account;
mod child_launcher;
mod child_pipe;
mod feed;
mod launching;
mod ready;
#[cfg(test)]
mod tests;

pub use child_launcher::ChildLauncher;
pub use child_pipe::ChildPipe;
