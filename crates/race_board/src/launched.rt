/// What came of a launch.
#[derive(Debug, Drop)]
pub enum Launched<P> {
    /// The child was started, and this is its pipe.
    Up(P),
    /// The launcher failed.
    NoStart,
    /// There was no memory to start the child.
    NoRoom,
}
