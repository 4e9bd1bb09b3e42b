ghost use Rattle.std.specs.Prelude.{◌≡◌, IsTrue, IfOk};
ghost use Rattle.hol_terms.specs.Types.{ty_fits};
ghost use Rattle.hol_terms.specs.Substitution.{put_free, one_put};
ghost use Rattle.hyp_sets.specs.Sets.{absent, image};
ghost use Rattle.kernel_rules.specs.Connectives.{lambda_over, all, some, chosen, right_of, head_ty, is_all, is_some_of, applied_to};
ghost use Rattle.kernel_rules.specs.Rules.{seq};
ghost use Rattle.hol_kernel.specs.Logs.{IsThm, thm};
ghost use Rattle.hol_kernel.specs.Growth.{Extends, Gives, Made, SameFacts};
ghost use Rattle.hol_kernel.specs.Conditions.{own_ty, IsGiven, IsProperty};

use crate::Log;
use hol_terms::{Term, Ty, copy, copy_ty};
use kernel_rules::{Step, ThmId};
use text_kit::NoMemory;

impl<'e> Log<'e> {
    /// From `G : c` to `G : !x. c` for a variable `x`, of this number and type, that isn't in `G`.
    #[tactic(none)]
    pub fn all_intro(&mut self, n: u64, ty: &Ty, a: ThmId) -> Result<ThmId, NoMemory>
        requires ty { IsTrue (ty_fits self.old.env.sig.types ty.now) }
        requires a { IsThm self.old a.0 }
        requires lacks { IsTrue (absent n ty.now (thm self.old a.0).hyps) }
        ensures kept { Extends self.old self.new }
        ensures facts { SameFacts self.old self.new }
        ensures gives { IfOk result (λ th. Gives self.new th.0 (seq (thm self.old a.0).hyps (all ty.now (lambda_over n ty.now (thm self.old a.0).concl)))) }
        ensures made { Made self.old self.new (Step.AllIntro n ty.now a) result }
    {
        let kind = copy_ty(ty)?;
        self.make(Step::AllIntro(n, kind, a))
    }

    /// From `G : All f` to `G : f@t`.
    #[tactic(none)]
    pub fn all_elim(&mut self, t: &Term, a: ThmId) -> Result<ThmId, NoMemory>
        requires a { IsThm self.old a.0 }
        requires fits { IsTrue (is_all (thm self.old a.0).concl) }
        requires t { IsGiven self.old.env.sig t.now (head_ty (thm self.old a.0).concl) }
        ensures kept { Extends self.old self.new }
        ensures facts { SameFacts self.old self.new }
        ensures gives { IfOk result (λ th. Gives self.new th.0 (seq (thm self.old a.0).hyps (applied_to (right_of (thm self.old a.0).concl) t.now))) }
        ensures made { Made self.old self.new (Step.AllElim t.now a) result }
    {
        let value = copy(t)?;
        self.make(Step::AllElim(value, a))
    }

    /// From `G : f@t` to `G : Ex f`.
    #[tactic(none)]
    pub fn ex_intro(&mut self, f: &Term, t: &Term, a: ThmId) -> Result<ThmId, NoMemory>
        requires t { IsGiven self.old.env.sig t.now (own_ty self.old.env.sig t.now) }
        requires f { IsProperty self.old.env.sig f.now (own_ty self.old.env.sig t.now) }
        requires a { IsThm self.old a.0 }
        requires fits { (thm self.old a.0).concl ≡ applied_to f.now t.now }
        ensures kept { Extends self.old self.new }
        ensures facts { SameFacts self.old self.new }
        ensures gives { IfOk result (λ th. Gives self.new th.0 (seq (thm self.old a.0).hyps (some (own_ty self.old.env.sig t.now) f.now))) }
        ensures made { Made self.old self.new (Step.ExIntro f.now t.now a) result }
    {
        let value = copy(t)?;
        let property = copy(f)?;
        self.make(Step::ExIntro(property, value, a))
    }

    /// From `G : Ex f` to `G : f@(Eps f)`.
    #[tactic(none)]
    pub fn choose(&mut self, a: ThmId) -> Result<ThmId, NoMemory>
        requires a { IsThm self.old a.0 }
        requires fits { IsTrue (is_some_of (thm self.old a.0).concl) }
        ensures kept { Extends self.old self.new }
        ensures facts { SameFacts self.old self.new }
        ensures gives { IfOk result (λ th. Gives self.new th.0 (seq (thm self.old a.0).hyps (applied_to (right_of (thm self.old a.0).concl) (chosen (head_ty (thm self.old a.0).concl) (right_of (thm self.old a.0).concl))))) }
        ensures made { Made self.old self.new (Step.Choose a) result }
    {
        self.make(Step::Choose(a))
    }

    /// From `G : c` to the same with `t` for the variable of this number and type in `G` and `c`.
    #[tactic(none)]
    pub fn inst(&mut self, n: u64, ty: &Ty, t: &Term, a: ThmId) -> Result<ThmId, NoMemory>
        requires ty { IsTrue (ty_fits self.old.env.sig.types ty.now) }
        requires t { IsGiven self.old.env.sig t.now ty.now }
        requires a { IsThm self.old a.0 }
        ensures kept { Extends self.old self.new }
        ensures facts { SameFacts self.old self.new }
        ensures gives { IfOk result (λ th. Gives self.new th.0 (seq (image (put_free (one_put n ty.now t.now)) (thm self.old a.0).hyps) (put_free (one_put n ty.now t.now) (thm self.old a.0).concl))) }
        ensures made { Made self.old self.new (Step.Inst n ty.now t.now a) result }
    {
        let value = copy(t)?;
        let kind = copy_ty(ty)?;
        self.make(Step::Inst(n, kind, value, a))
    }
}
