ghost use Rattle.std.specs.Prelude.{◌≡◌, ◌≤◌};
ghost use Rattle.theory_terms.specs.Meanings.{depth as depth_of};

use crate::numbered::Numbered;
use hol_terms::Term;
use text_kit::Shared;

/// The greatest depth of a term's tree.
pub(crate) const DEEPEST: u32 = 1024;

/// A part of a text that has been read: its first byte, its term, the term's type with its
/// number, and the depth of the term's tree.
#[derive(Drop)]
pub(crate) struct Part {
    pub(crate) at: u64,
    pub(crate) term: Shared<Term>,
    pub(crate) ty: Numbered,
    pub(crate) depth: u32,
    ghost is_depth: { depth ≡ depth_of term },
    ghost is_low: { depth ≤ 1024 },
}
