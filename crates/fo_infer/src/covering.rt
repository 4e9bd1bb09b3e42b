ghost use Rattle.std.specs.Prelude.{◌≡◌, ◌≤◌, ◌<◌, IfOk, length, take, drop};
ghost use Rattle.fo_terms.specs.Substitution.{put, put_atom, put_literal};
ghost use Rattle.fo_unify.specs.Shown.{as_binds};
ghost use Rattle.fo_unify.specs.Match.{Unique};
ghost use Rattle.fo_infer.specs.inner.Covering.{Narrows, Covers, CoversBy};
ghost use Rattle.fo_infer.specs.inner.Components.{literals};

use crate::seeking::Sought;
use fo_terms::{Atom, FoTerm, Literal};
use fo_unify::{Held, match_into};
use text_kit::{NoMemory, Rows};

fn match_term<'a>(s: &FoTerm, t: &'a FoTerm, binds: &mut Rows<Held<'a>>) -> Result<bool, NoMemory>
    requires { Unique (as_binds binds.old) }
    ensures kept { IfOk result (λ made. take (length binds.old) binds.new ≡ binds.old) }
    ensures narrows { IfOk result (λ made. Narrows (λ v. put v s.now ≡ t.now) (as_binds binds.old) (as_binds binds.new) made) }
{
    let made = match_into(s, t, binds)?;
    Ok(made)
}

/// Adds what variables have to stand for, where the one atom can be made the other.
fn match_atom<'a>(a: &Atom, b: &'a Atom, binds: &mut Rows<Held<'a>>) -> Result<bool, NoMemory>
    requires { Unique (as_binds binds.old) }
    ensures kept { IfOk result (λ made. take (length binds.old) binds.new ≡ binds.old) }
    ensures narrows { IfOk result (λ made. Narrows (λ v. put_atom v a.now ≡ b.now) (as_binds binds.old) (as_binds binds.new) made) }
{
    match (a, b) {
        (Atom::Holds(s), Atom::Holds(t)) => {
            let made = match_term(s, t, binds)?;
            Ok(made)
        }
        (Atom::Eq(s, t), Atom::Eq(x, y)) => {
            if !match_term(s, x, binds)? {
                return Ok(false);
            }
            let made = match_term(t, y, binds)?;
            Ok(made)
        }
        (Atom::Holds(_), Atom::Eq(_, _)) => Ok(false),
        (Atom::Eq(_, _), Atom::Holds(_)) => Ok(false),
    }
}

pub fn match_literal<'a>(
    l: &Literal,
    m: &'a Literal,
    binds: &mut Rows<Held<'a>>,
) -> Result<bool, NoMemory>
    requires { Unique (as_binds binds.old) }
    ensures kept { IfOk result (λ made. take (length binds.old) binds.new ≡ binds.old) }
    ensures narrows { IfOk result (λ made. Narrows (λ v. put_literal v l.now ≡ m.now) (as_binds binds.old) (as_binds binds.new) made) }
{
    if l.positive != m.positive {
        return Ok(false);
    }
    let made = match_atom(&l.atom, &m.atom, binds)?;
    Ok(made)
}

/// Takes away all bindings but the first ones.
pub fn undo<'a>(binds: &mut Rows<Held<'a>>, mark: usize)
    requires { mark ≤ length binds.old }
    ensures { binds.new ≡ take mark binds.old }
{
    while binds.len() > mark {
        let _ = binds.pop();
    }
}

/// Whether one substitution that fits the bindings sends each literal from place `k` on to a literal of `d`.
#[cycle(covering)]
pub fn covers<'a>(
    c: &[Sought],
    k: usize,
    d: &'a [Literal],
    binds: &mut Rows<Held<'a>>,
) -> Result<bool, NoMemory>
    requires unique { Unique (as_binds binds.old) }
    requires place { k ≤ length c.now }
    ensures kept { IfOk result (λ made. take (length binds.old) binds.new ≡ binds.old) }
    ensures covers { IfOk result (λ made. Covers (as_binds binds.old) d.now (literals (drop k c.now)) made) }
{
    if k == c.len() {
        return Ok(true);
    }
    let mark = binds.len();
    for m in d {
        if covers_by(&*c, k, m, &*d, binds)? {
            return Ok(true);
        }
        undo(binds, mark);
    }
    Ok(false)
}

/// The same, with the first of these literals sent to `m`.
#[cycle(covering)]
fn covers_by<'a>(
    c: &[Sought],
    k: usize,
    m: &'a Literal,
    d: &'a [Literal],
    binds: &mut Rows<Held<'a>>,
) -> Result<bool, NoMemory>
    requires unique { Unique (as_binds binds.old) }
    requires place { k < length c.now }
    ensures kept { IfOk result (λ made. take (length binds.old) binds.new ≡ binds.old) }
    ensures covers { IfOk result (λ made. CoversBy (as_binds binds.old) d.now m.now (literals (drop k c.now)) made) }
{
    if !match_literal(c[k].literal, m, binds)? {
        return Ok(false);
    }
    let made = covers(c, k + 1, d, binds)?;
    Ok(made)
}
