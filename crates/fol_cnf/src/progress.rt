/// The numbers of the next variable and of the next new symbol.
#[derive(Clone, Copy, Drop)]
pub struct Progress {
    pub variable: u64,
    pub symbol: u64,
}
