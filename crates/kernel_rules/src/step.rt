use hol_terms::{Term, Ty};

/// A theorem by its place in a log.
#[derive(Clone, Copy, Debug, Drop, PartialEq, Eq)]
pub struct ThmId(pub u64);

/// One step of a derivation: the rule with what it is given, terms and types by value, earlier theorems by their
/// places.
#[derive(Debug, Drop)]
pub enum Step {
    Fact(u32),
    Assume(Term),
    ImpIntro(Term, ThmId),
    ImpElim(ThmId, ThmId),
    AndIntro(ThmId, ThmId),
    AndLeft(ThmId),
    AndRight(ThmId),
    OrLeft(Term, ThmId),
    OrRight(Term, ThmId),
    OrElim(ThmId, ThmId, ThmId),
    NotIntro(Term, ThmId),
    NotElim(ThmId, ThmId),
    TrueIntro,
    Classical(Term, ThmId),
    AllIntro(u64, Ty, ThmId),
    AllElim(Term, ThmId),
    ExIntro(Term, Term, ThmId),
    Choose(ThmId),
    Refl(Term),
    Subst(Term, ThmId, ThmId),
    Beta(Term),
    Abs(u64, Ty, ThmId),
    Iff(ThmId, ThmId),
    Inst(u64, Ty, Term, ThmId),
}
