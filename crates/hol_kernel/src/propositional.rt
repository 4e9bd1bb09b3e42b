ghost use Rattle.std.specs.Prelude.{◌≡◌, ◌<◌, length, IsTrue, IfOk};
ghost use Rattle.std.specs.FinSet as set;
ghost use Rattle.hol_terms.specs.Formulas.{IsFormula};
ghost use Rattle.hyp_sets.specs.Sets.{only};
ghost use Rattle.kernel_rules.specs.Connectives.{verum, falsum, neg, conj, disj, imp, left_of, right_of, is_conj, is_disj};
ghost use Rattle.kernel_rules.specs.Rules.{seq};
ghost use Rattle.hol_kernel.specs.Logs.{IsThm, thm, fact_at};
ghost use Rattle.hol_kernel.specs.Growth.{Extends, Gives, Made, SameFacts};
ghost use Rattle.hol_kernel.specs.Conditions.{IsImp};

use crate::Log;
use hol_terms::{Term, copy};
use kernel_rules::{Step, ThmId};
use text_kit::NoMemory;

impl<'e> Log<'e> {
    /// `{} : F`, the fact of this number.
    #[tactic(none)]
    pub fn fact(&mut self, fact: u32) -> Result<ThmId, NoMemory>
        requires { fact < length self.old.env.facts }
        ensures kept { Extends self.old self.new }
        ensures gives { IfOk result (λ th. Gives self.new th.0 (seq set.empty (fact_at self.old.env fact))) }
        ensures made { Made self.old self.new (Step.Fact fact) result }
    {
        self.make(Step::Fact(fact))
    }

    /// `{t} : t`
    #[tactic(none)]
    pub fn assume(&mut self, t: &Term) -> Result<ThmId, NoMemory>
        requires { IsFormula self.old.env.sig t.now }
        ensures kept { Extends self.old self.new }
        ensures facts { SameFacts self.old self.new }
        ensures gives { IfOk result (λ th. Gives self.new th.0 (seq (only t.now) t.now)) }
        ensures made { Made self.old self.new (Step.Assume t.now) result }
    {
        let value = copy(t)?;
        self.make(Step::Assume(value))
    }

    /// `assume` with what it is given by value.
    #[tactic(none)]
    pub fn assume_own(&mut self, t: Term) -> Result<ThmId, NoMemory>
        requires { IsFormula self.old.env.sig t }
        ensures kept { Extends self.old self.new }
        ensures facts { SameFacts self.old self.new }
        ensures gives { IfOk result (λ th. Gives self.new th.0 (seq (only t) t)) }
        ensures made { Made self.old self.new (Step.Assume t) result }
    {
        self.make(Step::Assume(t))
    }

    /// From `G : c` to `G - t : t ==> c`.
    #[tactic(none)]
    pub fn imp_intro(&mut self, t: &Term, a: ThmId) -> Result<ThmId, NoMemory>
        requires t { IsFormula self.old.env.sig t.now }
        requires a { IsThm self.old a.0 }
        ensures kept { Extends self.old self.new }
        ensures facts { SameFacts self.old self.new }
        ensures gives { IfOk result (λ th. Gives self.new th.0 (seq (set.remove (thm self.old a.0).hyps t.now) (imp t.now (thm self.old a.0).concl))) }
        ensures made { Made self.old self.new (Step.ImpIntro t.now a) result }
    {
        let value = copy(t)?;
        self.make(Step::ImpIntro(value, a))
    }

    /// `imp_intro` with what it is given by value.
    #[tactic(none)]
    pub fn imp_intro_own(&mut self, t: Term, a: ThmId) -> Result<ThmId, NoMemory>
        requires t { IsFormula self.old.env.sig t }
        requires a { IsThm self.old a.0 }
        ensures kept { Extends self.old self.new }
        ensures facts { SameFacts self.old self.new }
        ensures gives { IfOk result (λ th. Gives self.new th.0 (seq (set.remove (thm self.old a.0).hyps t) (imp t (thm self.old a.0).concl))) }
        ensures made { Made self.old self.new (Step.ImpIntro t a) result }
    {
        self.make(Step::ImpIntro(t, a))
    }

    /// From `G : a ==> b` and `D : a` to `G + D : b`.
    #[tactic(none)]
    pub fn imp_elim(&mut self, ab: ThmId, a: ThmId) -> Result<ThmId, NoMemory>
        requires ab { IsThm self.old ab.0 }
        requires a { IsThm self.old a.0 }
        requires fits { IsImp (thm self.old ab.0).concl (thm self.old a.0).concl }
        ensures kept { Extends self.old self.new }
        ensures facts { SameFacts self.old self.new }
        ensures gives { IfOk result (λ th. Gives self.new th.0 (seq (set.union (thm self.old ab.0).hyps (thm self.old a.0).hyps) (right_of (thm self.old ab.0).concl))) }
        ensures made { Made self.old self.new (Step.ImpElim ab a) result }
    {
        self.make(Step::ImpElim(ab, a))
    }

    /// From `G : a` and `D : b` to `G + D : a & b`.
    #[tactic(none)]
    pub fn and_intro(&mut self, a: ThmId, b: ThmId) -> Result<ThmId, NoMemory>
        requires a { IsThm self.old a.0 }
        requires b { IsThm self.old b.0 }
        ensures kept { Extends self.old self.new }
        ensures facts { SameFacts self.old self.new }
        ensures gives { IfOk result (λ th. Gives self.new th.0 (seq (set.union (thm self.old a.0).hyps (thm self.old b.0).hyps) (conj (thm self.old a.0).concl (thm self.old b.0).concl))) }
        ensures made { Made self.old self.new (Step.AndIntro a b) result }
    {
        self.make(Step::AndIntro(a, b))
    }

    /// From `G : a & b` to `G : a`.
    #[tactic(none)]
    pub fn and_left(&mut self, ab: ThmId) -> Result<ThmId, NoMemory>
        requires ab { IsThm self.old ab.0 }
        requires fits { IsTrue (is_conj (thm self.old ab.0).concl) }
        ensures kept { Extends self.old self.new }
        ensures facts { SameFacts self.old self.new }
        ensures gives { IfOk result (λ th. Gives self.new th.0 (seq (thm self.old ab.0).hyps (left_of (thm self.old ab.0).concl))) }
        ensures made { Made self.old self.new (Step.AndLeft ab) result }
    {
        self.make(Step::AndLeft(ab))
    }

    /// From `G : a & b` to `G : b`.
    #[tactic(none)]
    pub fn and_right(&mut self, ab: ThmId) -> Result<ThmId, NoMemory>
        requires ab { IsThm self.old ab.0 }
        requires fits { IsTrue (is_conj (thm self.old ab.0).concl) }
        ensures kept { Extends self.old self.new }
        ensures facts { SameFacts self.old self.new }
        ensures gives { IfOk result (λ th. Gives self.new th.0 (seq (thm self.old ab.0).hyps (right_of (thm self.old ab.0).concl))) }
        ensures made { Made self.old self.new (Step.AndRight ab) result }
    {
        self.make(Step::AndRight(ab))
    }

    /// From `G : a` to `G : a | t`.
    #[tactic(none)]
    pub fn or_left(&mut self, t: &Term, a: ThmId) -> Result<ThmId, NoMemory>
        requires t { IsFormula self.old.env.sig t.now }
        requires a { IsThm self.old a.0 }
        ensures kept { Extends self.old self.new }
        ensures facts { SameFacts self.old self.new }
        ensures gives { IfOk result (λ th. Gives self.new th.0 (seq (thm self.old a.0).hyps (disj (thm self.old a.0).concl t.now))) }
        ensures made { Made self.old self.new (Step.OrLeft t.now a) result }
    {
        let value = copy(t)?;
        self.make(Step::OrLeft(value, a))
    }

    /// `or_left` with what it is given by value.
    #[tactic(none)]
    pub fn or_left_own(&mut self, t: Term, a: ThmId) -> Result<ThmId, NoMemory>
        requires t { IsFormula self.old.env.sig t }
        requires a { IsThm self.old a.0 }
        ensures kept { Extends self.old self.new }
        ensures facts { SameFacts self.old self.new }
        ensures gives { IfOk result (λ th. Gives self.new th.0 (seq (thm self.old a.0).hyps (disj (thm self.old a.0).concl t))) }
        ensures made { Made self.old self.new (Step.OrLeft t a) result }
    {
        self.make(Step::OrLeft(t, a))
    }

    /// From `G : b` to `G : t | b`.
    #[tactic(none)]
    pub fn or_right(&mut self, t: &Term, b: ThmId) -> Result<ThmId, NoMemory>
        requires t { IsFormula self.old.env.sig t.now }
        requires b { IsThm self.old b.0 }
        ensures kept { Extends self.old self.new }
        ensures facts { SameFacts self.old self.new }
        ensures gives { IfOk result (λ th. Gives self.new th.0 (seq (thm self.old b.0).hyps (disj t.now (thm self.old b.0).concl))) }
        ensures made { Made self.old self.new (Step.OrRight t.now b) result }
    {
        let value = copy(t)?;
        self.make(Step::OrRight(value, b))
    }

    /// From `G : a | b`, `D : c` and `E : c` to `G + (D - a) + (E - b) : c`.
    #[tactic(none)]
    pub fn or_elim(&mut self, ab: ThmId, l: ThmId, r: ThmId) -> Result<ThmId, NoMemory>
        requires ab { IsThm self.old ab.0 }
        requires l { IsThm self.old l.0 }
        requires r { IsThm self.old r.0 }
        requires fits { IsTrue (is_disj (thm self.old ab.0).concl) }
        requires alike { (thm self.old l.0).concl ≡ (thm self.old r.0).concl }
        ensures kept { Extends self.old self.new }
        ensures facts { SameFacts self.old self.new }
        ensures gives { IfOk result (λ th. Gives self.new th.0 (seq (set.union (set.union (thm self.old ab.0).hyps (set.remove (thm self.old l.0).hyps (left_of (thm self.old ab.0).concl))) (set.remove (thm self.old r.0).hyps (right_of (thm self.old ab.0).concl))) (thm self.old l.0).concl)) }
        ensures made { Made self.old self.new (Step.OrElim ab l r) result }
    {
        self.make(Step::OrElim(ab, l, r))
    }

    /// From `G : false` to `G - t : ~t`.
    #[tactic(none)]
    pub fn not_intro(&mut self, t: &Term, a: ThmId) -> Result<ThmId, NoMemory>
        requires t { IsFormula self.old.env.sig t.now }
        requires a { IsThm self.old a.0 }
        requires fits { (thm self.old a.0).concl ≡ falsum }
        ensures kept { Extends self.old self.new }
        ensures facts { SameFacts self.old self.new }
        ensures gives { IfOk result (λ th. Gives self.new th.0 (seq (set.remove (thm self.old a.0).hyps t.now) (neg t.now))) }
        ensures made { Made self.old self.new (Step.NotIntro t.now a) result }
    {
        let value = copy(t)?;
        self.make(Step::NotIntro(value, a))
    }

    /// From `G : ~a` and `D : a` to `G + D : false`.
    #[tactic(none)]
    pub fn not_elim(&mut self, na: ThmId, a: ThmId) -> Result<ThmId, NoMemory>
        requires na { IsThm self.old na.0 }
        requires a { IsThm self.old a.0 }
        requires fits { (thm self.old na.0).concl ≡ neg (thm self.old a.0).concl }
        ensures kept { Extends self.old self.new }
        ensures facts { SameFacts self.old self.new }
        ensures gives { IfOk result (λ th. Gives self.new th.0 (seq (set.union (thm self.old na.0).hyps (thm self.old a.0).hyps) falsum)) }
        ensures made { Made self.old self.new (Step.NotElim na a) result }
    {
        self.make(Step::NotElim(na, a))
    }

    /// `{} : true`
    #[tactic(none)]
    pub fn true_intro(&mut self) -> Result<ThmId, NoMemory>
        ensures kept { Extends self.old self.new }
        ensures facts { SameFacts self.old self.new }
        ensures gives { IfOk result (λ th. Gives self.new th.0 (seq set.empty verum)) }
        ensures made { Made self.old self.new Step.TrueIntro result }
    {
        self.make(Step::TrueIntro)
    }

    /// From `G : false` to `G - ~t : t`.
    #[tactic(none)]
    pub fn classical(&mut self, t: &Term, a: ThmId) -> Result<ThmId, NoMemory>
        requires t { IsFormula self.old.env.sig t.now }
        requires a { IsThm self.old a.0 }
        requires fits { (thm self.old a.0).concl ≡ falsum }
        ensures kept { Extends self.old self.new }
        ensures facts { SameFacts self.old self.new }
        ensures gives { IfOk result (λ th. Gives self.new th.0 (seq (set.remove (thm self.old a.0).hyps (neg t.now)) t.now)) }
        ensures made { Made self.old self.new (Step.Classical t.now a) result }
    {
        let value = copy(t)?;
        self.make(Step::Classical(value, a))
    }

    /// `classical` with what it is given by value.
    #[tactic(none)]
    pub fn classical_own(&mut self, t: Term, a: ThmId) -> Result<ThmId, NoMemory>
        requires t { IsFormula self.old.env.sig t }
        requires a { IsThm self.old a.0 }
        requires fits { (thm self.old a.0).concl ≡ falsum }
        ensures kept { Extends self.old self.new }
        ensures facts { SameFacts self.old self.new }
        ensures gives { IfOk result (λ th. Gives self.new th.0 (seq (set.remove (thm self.old a.0).hyps (neg t)) t)) }
        ensures made { Made self.old self.new (Step.Classical t a) result }
    {
        self.make(Step::Classical(t, a))
    }
}
