ghost use Rattle.std.specs.Prelude.{◌≡◌, ◌↔◌, ℕ, IsTrue, IfOk};
ghost use Rattle.fo_terms.specs.Substitution.{var, put};
ghost use Rattle.fo_unify.specs.Lookup.{term_of};
ghost use Rattle.fo_unify.specs.Unifier.{Equates};

use crate::solving::{resolve, solved_form};
use crate::subst::Bind;
use crate::triangle::{Held, agree, walk};
use fo_terms::FoTerm;
use std::alloc::Global;
use std::marker::Model;
use text_kit::{NoMemory, Rows};

/// A substitution, which contracts see in solved form.
///
/// It is held as the bindings that unification made, one after another, with their terms as they stand in the unified ones: no term is
/// written out before it is asked for.
#[derive(Drop)]
pub struct Bindings<'a> {
    pub(crate) binds: Rows<Held<'a>>,
}

impl<'a> Model for Bindings<'a> {
    ghost use Rattle.std.specs.Prelude.{List};
    ghost use Rattle.std.specs.Coded.{coded_list};
    ghost use Rattle.fo_unify.specs.declared.subst.Bind.{Bind};
    ghost use Rattle.fo_unify.specs.contracts.subst.Bind as bind;

    ghost Value = { List Bind };

    ghost coded = { coded_list bind.the_row.coded };

    ghost use Rattle.fo_unify.specs.inner.Triangle.{Good, resolved};
    ghost use Rattle.fo_unify.specs.Shown.{as_binds};

    ghost view = { λ u. resolved (as_binds u.binds) };

    ghost invariant = { λ u. Good (as_binds u.binds) };
}

impl<'a> Bindings<'a> {
    /// The term with the substitution put through it.
    pub fn apply(&self, alloc: Global, t: &FoTerm) -> Result<FoTerm, NoMemory>
        ensures { IfOk result (λ s. s ≡ put (term_of self.now) t.now) }
    {
        let made = resolve(alloc, t, self.binds.as_slice())?;
        Ok(made)
    }

    /// The bindings, each with its term written out.
    pub fn solved(&self, alloc: Global) -> Result<Rows<Bind>, NoMemory>
        ensures { IfOk result (λ out. out ≡ self.now) }
    {
        let made = solved_form(alloc, self.binds.as_slice())?;
        Ok(made)
    }

    /// The term that stands for this one down to its head: no variable that is bound.
    pub fn look(&self, t: &'a FoTerm) -> &'a FoTerm
        ensures same { put (term_of self.now) result.now ≡ put (term_of self.now) t.now }
        ensures free { (y : ℕ) → result.now ≡ var y → term_of self.now y ≡ var y }
    {
        walk(self.binds.as_slice(), t)
    }

    /// Whether the substitution makes two terms the same. Each pair of a bound variable and another term is looked through once.
    pub fn makes_same(&self, alloc: Global, s: &'a FoTerm, t: &'a FoTerm) -> Result<bool, NoMemory>
        ensures { IfOk result (λ r. IsTrue r ↔ Equates (term_of self.now) s.now t.now) }
    {
        let mut known = Rows::begin(alloc);
        let same = agree(self.binds.as_slice(), s, t, &mut known)?;
        Ok(same)
    }
}
