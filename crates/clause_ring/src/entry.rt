/// A clause that waits: how much it weighs, and its number, by which its age is told.
#[derive(Clone, Copy, Debug, PartialEq, Eq)]
pub struct Entry {
    pub weight: u32,
    pub number: u32,
}
