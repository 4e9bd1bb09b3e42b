use hol_terms::Term;
use hyp_sets::Hyps;

/// Hypotheses and the conclusion that follows from them.
#[derive(Debug, Drop)]
pub struct Sequent {
    pub hyps: Hyps,
    pub concl: Term,
}
