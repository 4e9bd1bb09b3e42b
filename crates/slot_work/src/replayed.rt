use hol_kernel::Proven;

/// What a replay of facts gave.
#[derive(Debug, Drop)]
pub enum Replayed {
    /// the minimal facts, and the steps of a proof from them
    Proved(Proven),
    /// no clause waited any more
    Saturated,
    /// the budget was used up, or a clause too many would have been kept
    Spent,
}
