ghost use Rattle.std.specs.Prelude.{◌≡◌, IsTrue, IfOk};
ghost use Rattle.std.specs.FinSet as set;
ghost use Rattle.hol_terms.specs.Types.{bool_ty, function_ty, ty_fits};
ghost use Rattle.hyp_sets.specs.Sets.{absent};
ghost use Rattle.kernel_rules.specs.Connectives.{lambda_over, imp, equal, left_of, right_of, head_ty, is_imp, is_equal, is_redex, applied_to, contracted};
ghost use Rattle.kernel_rules.specs.Rules.{seq};
ghost use Rattle.hol_kernel.specs.Logs.{IsThm, thm};
ghost use Rattle.hol_kernel.specs.Growth.{Extends, Gives, Made, SameFacts};
ghost use Rattle.hol_kernel.specs.Conditions.{own_ty, IsGiven, IsProperty};

use crate::Log;
use hol_terms::{Term, Ty, copy, copy_ty};
use kernel_rules::{Step, ThmId};
use text_kit::NoMemory;

impl<'e> Log<'e> {
    /// `{} : t = t`
    #[tactic(none)]
    pub fn refl(&mut self, t: &Term) -> Result<ThmId, NoMemory>
        requires { IsGiven self.old.env.sig t.now (own_ty self.old.env.sig t.now) }
        ensures kept { Extends self.old self.new }
        ensures facts { SameFacts self.old self.new }
        ensures gives { IfOk result (λ th. Gives self.new th.0 (seq set.empty (equal (own_ty self.old.env.sig t.now) t.now t.now))) }
        ensures made { Made self.old self.new (Step.Refl t.now) result }
    {
        let value = copy(t)?;
        self.make(Step::Refl(value))
    }

    /// From `G : s = t` and `D : f@s` to `G + D : f@t`.
    #[tactic(none)]
    pub fn subst(&mut self, f: &Term, eq: ThmId, a: ThmId) -> Result<ThmId, NoMemory>
        requires eq { IsThm self.old eq.0 }
        requires a { IsThm self.old a.0 }
        requires is { IsTrue (is_equal (thm self.old eq.0).concl) }
        requires f { IsProperty self.old.env.sig f.now (head_ty (thm self.old eq.0).concl) }
        requires fits { (thm self.old a.0).concl ≡ applied_to f.now (left_of (thm self.old eq.0).concl) }
        ensures kept { Extends self.old self.new }
        ensures facts { SameFacts self.old self.new }
        ensures gives { IfOk result (λ th. Gives self.new th.0 (seq (set.union (thm self.old eq.0).hyps (thm self.old a.0).hyps) (applied_to f.now (right_of (thm self.old eq.0).concl)))) }
        ensures made { Made self.old self.new (Step.Subst f.now eq a) result }
    {
        let property = copy(f)?;
        self.make(Step::Subst(property, eq, a))
    }

    /// `subst` with what it is given by value.
    #[tactic(none)]
    pub fn subst_own(&mut self, f: Term, eq: ThmId, a: ThmId) -> Result<ThmId, NoMemory>
        requires eq { IsThm self.old eq.0 }
        requires a { IsThm self.old a.0 }
        requires is { IsTrue (is_equal (thm self.old eq.0).concl) }
        requires f { IsProperty self.old.env.sig f (head_ty (thm self.old eq.0).concl) }
        requires fits { (thm self.old a.0).concl ≡ applied_to f (left_of (thm self.old eq.0).concl) }
        ensures kept { Extends self.old self.new }
        ensures facts { SameFacts self.old self.new }
        ensures gives { IfOk result (λ th. Gives self.new th.0 (seq (set.union (thm self.old eq.0).hyps (thm self.old a.0).hyps) (applied_to f (right_of (thm self.old eq.0).concl)))) }
        ensures made { Made self.old self.new (Step.Subst f eq a) result }
    {
        self.make(Step::Subst(f, eq, a))
    }

    /// `{} : (\x. b) u = b[u]`
    #[tactic(none)]
    pub fn beta(&mut self, t: &Term) -> Result<ThmId, NoMemory>
        requires t { IsGiven self.old.env.sig t.now (own_ty self.old.env.sig t.now) }
        requires fits { IsTrue (is_redex t.now) }
        ensures kept { Extends self.old self.new }
        ensures facts { SameFacts self.old self.new }
        ensures gives { IfOk result (λ th. Gives self.new th.0 (seq set.empty (equal (own_ty self.old.env.sig t.now) t.now (contracted t.now)))) }
        ensures made { Made self.old self.new (Step.Beta t.now) result }
    {
        let value = copy(t)?;
        self.make(Step::Beta(value))
    }

    /// From `G : s = t` to `G : (\x. s) = (\x. t)` for a variable `x`, of this number and type, that isn't in
    /// `G`.
    #[tactic(none)]
    pub fn abs(&mut self, n: u64, ty: &Ty, a: ThmId) -> Result<ThmId, NoMemory>
        requires ty { IsTrue (ty_fits self.old.env.sig.types ty.now) }
        requires a { IsThm self.old a.0 }
        requires is { IsTrue (is_equal (thm self.old a.0).concl) }
        requires lacks { IsTrue (absent n ty.now (thm self.old a.0).hyps) }
        ensures kept { Extends self.old self.new }
        ensures facts { SameFacts self.old self.new }
        ensures gives { IfOk result (λ th. Gives self.new th.0 (seq (thm self.old a.0).hyps (equal (function_ty ty.now (head_ty (thm self.old a.0).concl)) (lambda_over n ty.now (left_of (thm self.old a.0).concl)) (lambda_over n ty.now (right_of (thm self.old a.0).concl))))) }
        ensures made { Made self.old self.new (Step.Abs n ty.now a) result }
    {
        let kind = copy_ty(ty)?;
        self.make(Step::Abs(n, kind, a))
    }

    /// From `G : a ==> b` and `D : b ==> a` to `G + D : a = b`.
    #[tactic(none)]
    pub fn iff(&mut self, ab: ThmId, ba: ThmId) -> Result<ThmId, NoMemory>
        requires ab { IsThm self.old ab.0 }
        requires ba { IsThm self.old ba.0 }
        requires is { IsTrue (is_imp (thm self.old ab.0).concl) }
        requires converse { (thm self.old ba.0).concl ≡ imp (right_of (thm self.old ab.0).concl) (left_of (thm self.old ab.0).concl) }
        ensures kept { Extends self.old self.new }
        ensures facts { SameFacts self.old self.new }
        ensures gives { IfOk result (λ th. Gives self.new th.0 (seq (set.union (thm self.old ab.0).hyps (thm self.old ba.0).hyps) (equal bool_ty (left_of (thm self.old ab.0).concl) (right_of (thm self.old ab.0).concl)))) }
        ensures made { Made self.old self.new (Step.Iff ab ba) result }
    {
        self.make(Step::Iff(ab, ba))
    }
}
