use race_board::Drained;
use race_core::Outcome;
use race_outside::Pipe;

/// A slot whose child's output was read, and the end that was found for it; none where its worker saw that
/// the race was over first.
#[derive(Drop)]
pub(crate) struct Judged<P: Pipe, Q: Drop> {
    pub slot: u32,
    pub drained: Drained<P>,
    pub outcome: Option<Outcome<Q>>,
}
