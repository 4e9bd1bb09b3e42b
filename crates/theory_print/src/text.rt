ghost use Rattle.std.specs.Prelude.{◌≡◌, ◌<◌, ◌≤◌, nat_le, is_some};
ghost use Rattle.theory_terms.specs.Meanings.{depth};
ghost use Rattle.theory_print.specs.Shapes.{part_of};
ghost use Rattle.theory_print.specs.Views.{whole, has_text as can_be_read};

use crate::view::{View, view_of};
use hol_terms::Term;

/// Whether a term's tree is no deeper than this.
fn is_shallow(t: &Term, room: u32) -> bool
    ensures { result ≡ nat_le (depth t.now) room }
{
    if room == 0 {
        return false;
    }
    match t {
        Term::Bound(_) => true,
        Term::Free(_, _) => true,
        Term::Con(_) => true,
        Term::App(f, x) => is_shallow(f.get(), room - 1) && is_shallow(x.get(), room - 1),
        Term::Lam(_, b) => is_shallow(b.get(), room - 1),
    }
}

/// Whether a term can be written.
fn is_whole(t: &Term) -> bool
    ensures { result ≡ is_some (whole (part_of t.now)) }
{
    match view_of(t) {
        View::Variable(_) => true,
        View::Constant(_) => true,
        View::Truth(_) => true,
        View::Apply(f, x) => is_whole(f) && is_whole(x),
        View::Equals(a, b) => is_whole(a) && is_whole(b),
        View::Not(a) => is_whole(a),
        View::Join(_, a, b) => is_whole(a) && is_whole(b),
        View::Bind(_, _, b) => is_whole(b),
        View::Unwritten => false,
    }
}

/// Whether some text has the term: free variables and auxiliary constants stand in none, nor do signs without their
/// sides and quantifiers on no lambda, and no text is read whose trees are deeper than 1,024. It takes no memory.
pub fn has_text(t: &Term) -> bool
    ensures { result ≡ can_be_read t.now }
{
    is_shallow(t, 1024) && is_whole(t)
}
