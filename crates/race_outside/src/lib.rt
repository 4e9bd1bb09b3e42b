//! The outside: files, text, children and the work on what they print, as traits, with forms in memory and the real ones.
#![tactic(auto)]

mod causes;
mod child;
mod chunk;
mod file_shelf;
mod flow;
mod gate_launcher;
mod held;
mod launcher;
mod listed;
mod memory_launcher;
mod memory_pipe;
mod memory_shelf;
mod memory_sink;
mod notes;
mod pipe;
mod shelf;
mod sink;
mod stream_pipe;
mod stream_sink;
mod sure_launcher;
mod sure_pipe;
mod sure_shelf;
#[cfg(test)]
mod tests;
mod work;
mod work_turn;

pub use causes::{Failed, FetchFault, StartFault};
pub use child::Child;
pub use chunk::Chunk;
pub use file_shelf::FileShelf;
pub use gate_launcher::{GateLauncher, GatePipe};
pub use held::Held;
pub use launcher::Launcher;
pub use memory_launcher::MemoryLauncher;
pub use memory_pipe::MemoryPipe;
pub use memory_shelf::MemoryShelf;
pub use memory_sink::MemorySink;
pub use pipe::Pipe;
pub use shelf::Shelf;
pub use sink::Sink;
pub use stream_pipe::StreamPipe;
pub use stream_sink::StreamSink;
pub use sure_launcher::SureLauncher;
pub use sure_pipe::SurePipe;
pub use sure_shelf::SureShelf;
pub use work::Work;
pub use work_turn::WorkTurn;
