use fo_terms::FoFormula;

/// A statement as it is read: its name is a number, as in the tokens.
#[derive(Debug, Drop)]
pub struct Claimed {
    pub name: u64,
    pub conjecture: bool,
    pub formula: FoFormula,
}
