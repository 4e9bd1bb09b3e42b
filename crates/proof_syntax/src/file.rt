use kernel_rules::Step;
use text_kit::Rows;

/// What a proof text says: the number of a goal of the theory, and the steps.
#[derive(Debug, Drop)]
pub struct ProofFile {
    pub goal: u32,
    pub steps: Rows<Step>,
}
