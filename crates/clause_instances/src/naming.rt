ghost use Rattle.std.specs.Prelude.{◌≡◌, ◌<◌, ◌++◌, length, slice_set, IfOk};
ghost use Rattle.std.specs.List.{remove};
ghost use Rattle.fo_terms.specs.Substitution.{put_literals};
ghost use Rattle.fo_unify.specs.Lookup.{term_of};
ghost use Rattle.tagged_lines.specs.Variables.{lasting_variables as in_the_end};

use fo_infer::{push_changed, push_rest};
use fo_terms::{Literal, lasting_variables};
use fo_unify::Bind;
use std::alloc::Global;
use text_kit::{NoMemory, Rows};

/// The variables of what one literal leaves of a clause, in the order of the normal form.
pub fn rest_names(
    alloc: Global,
    binds: &[Bind],
    p: &[Literal],
    i: usize,
) -> Result<Rows<u64>, NoMemory>
    requires { i < length p.now }
    ensures { IfOk result (λ seen. seen ≡ in_the_end (put_literals (term_of binds.now) (remove p.now i))) }
{
    let mut before = Rows::begin(alloc);
    push_rest(alloc, binds, p, i, &mut before)?;
    lasting_variables(alloc, before.as_slice())
}

/// The variables of a resolvent, in the order of its normal form.
pub fn resolvent_names(
    alloc: Global,
    binds: &[Bind],
    p: &[Literal],
    i: usize,
    apart: &[Literal],
    j: usize,
) -> Result<Rows<u64>, NoMemory>
    requires left { i < length p.now }
    requires right { j < length apart.now }
    ensures { IfOk result (λ seen. seen ≡ in_the_end (put_literals (term_of binds.now) (remove p.now i ++ remove apart.now j))) }
{
    let mut before = Rows::begin(alloc);
    push_rest(alloc, &*binds, p, i, &mut before)?;
    push_rest(alloc, &*binds, apart, j, &mut before)?;
    lasting_variables(alloc, before.as_slice())
}

/// The variables of a paramodulant, in the order of its normal form, where `into` is the literal that is rewritten.
pub fn paramodulant_names(
    alloc: Global,
    binds: &[Bind],
    p: &[Literal],
    i: usize,
    apart: &[Literal],
    j: usize,
    into: Literal,
) -> Result<Rows<u64>, NoMemory>
    requires left { i < length p.now }
    requires right { j < length apart.now }
    ensures { IfOk result (λ seen. seen ≡ in_the_end (put_literals (term_of binds.now) (remove p.now i ++ slice_set apart.now j into))) }
{
    let mut before = Rows::begin(alloc);
    push_rest(alloc, &*binds, p, i, &mut before)?;
    push_changed(alloc, &*binds, apart, j, into, &mut before)?;
    lasting_variables(alloc, before.as_slice())
}
