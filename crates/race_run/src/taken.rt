/// What a worker found to do: a slot whose child was started, with its pipe; a slot whose child wasn't; or
/// nothing.
#[derive(Drop)]
pub(crate) enum Taken<P> {
    Up(u32, P),
    Refused,
    Nothing,
}
