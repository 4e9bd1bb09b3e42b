use hol_terms::Env;
use text_kit::Bytes;
use theory_reader::Theory;

/// The bytes of a child, and what they are replayed for.
#[derive(Drop)]
pub struct Slot<'t> {
    pub theory: &'t Theory,
    pub goal: u32,
    pub budget: u32,
    pub env: Env,
    pub bytes: Bytes,
}
