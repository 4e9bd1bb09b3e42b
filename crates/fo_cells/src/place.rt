/// Where a literal stands in a clause's cells, its sign, and whether it is an equation.
#[derive(Clone, Copy, Debug, Drop)]
pub struct Place {
    pub positive: bool,
    pub equation: bool,
    /// the place of its first cell
    pub start: usize,
    /// the place behind its last cell
    pub end: usize,
}
