ghost use Rattle.fin_model.specs.inner.Heads.{IsHead, IsFirstHead, IsSecondHead};

use hol_terms::{Konst, Term, Ty};

/// What an application puts to its argument: a quantifier or `Eps`, with the type of its variable; `not`; a constant of two arguments with the first of
/// them; or anything else.
pub(crate) enum Head<'a> {
    Binder(&'a Konst, &'a Ty),
    Not,
    Two(&'a Konst, &'a Term),
    Other,
}

pub(crate) fn head_of_application(f: &Term) -> Head<'_>
    ensures { IsHead f.now result }
{
    match f {
        Term::Con(k) => first_head(k),
        Term::App(g, y) => match g.get() {
            Term::Con(k) => second_head(k, y.get()),
            _ => Head::Other,
        },
        _ => Head::Other,
    }
}

fn first_head(k: &Konst) -> Head<'_>
    ensures { IsFirstHead k.now result }
{
    match k {
        Konst::All(a) => Head::Binder(k, a),
        Konst::Ex(a) => Head::Binder(k, a),
        Konst::Eps(a) => Head::Binder(k, a),
        Konst::Not => Head::Not,
        _ => Head::Other,
    }
}

fn second_head<'a>(k: &'a Konst, y: &'a Term) -> Head<'a>
    ensures { IsSecondHead k.now y.now result }
{
    match k {
        Konst::And => Head::Two(k, y),
        Konst::Or => Head::Two(k, y),
        Konst::Imp => Head::Two(k, y),
        Konst::Eq(_) => Head::Two(k, y),
        _ => Head::Other,
    }
}
