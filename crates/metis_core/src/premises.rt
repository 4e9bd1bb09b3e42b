/// The premises of inferences, by their clauses' numbers.
#[derive(Clone, Copy, Debug, Drop, PartialEq, Eq)]
pub enum Premises {
    /// one clause alone
    One(u32),
    /// a left and a right clause
    Two(u32, u32),
}
