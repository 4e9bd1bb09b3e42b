use race_core::Outcome;

/// What a turn of a task gave: it goes on, or it is done with this outcome.
#[derive(Debug, Drop)]
pub enum WorkTurn<P> {
    More,
    Done(Outcome<P>),
}
