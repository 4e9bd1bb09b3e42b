use fo_infer::Refutation;

/// How a search ended.
#[derive(Debug, Drop)]
pub enum Ended {
    /// it found this refutation
    Found(Refutation),
    /// no clause waited any more
    Saturated,
    /// the budget was used up, or a clause too many would have been kept
    Spent,
}
