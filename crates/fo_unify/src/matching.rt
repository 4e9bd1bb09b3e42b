ghost use Rattle.std.specs.Prelude.{◌≡◌, IfOk, length, take};
ghost use Rattle.std.specs.Option.{option_copied};
ghost use Rattle.fo_unify.specs.Lookup.{lookup};
ghost use Rattle.fo_unify.specs.Shown.{as_binds};
ghost use Rattle.fo_unify.specs.Match.{Unique, Matches, MatchesAll, MatchOf};

use crate::subst::{Bind, Subst};
use crate::triangle::Held;
use fo_terms::FoTerm;
use std::alloc::Global;
use text_kit::{NoMemory, Rows};

pub fn find_held<'a>(binds: &[Held<'a>], x: u64) -> Option<&'a FoTerm>
    ensures { option_copied result ≡ lookup (as_binds binds.now) x }
{
    for b in binds {
        if b.var == x {
            return Some(b.term);
        }
    }
    None
}

/// Adds what the pattern's variables have to stand for, where it can be made the term.
#[cycle(matching)]
pub fn match_into<'a>(
    pattern: &FoTerm,
    t: &'a FoTerm,
    binds: &mut Rows<Held<'a>>,
) -> Result<bool, NoMemory>
    requires { Unique (as_binds binds.old) }
    ensures kept { IfOk result (λ made. take (length binds.old) binds.new ≡ binds.old) }
    ensures adds { IfOk result (λ made. Matches pattern.now t.now (as_binds binds.old) (as_binds binds.new) made) }
{
    match (pattern, t) {
        (FoTerm::Var(x), _) => match find_held(binds.as_slice(), *x) {
            Some(found) => Ok(found.same(t)),
            None => {
                binds.push(Held { var: *x, term: t })?;
                Ok(true)
            }
        },
        (FoTerm::Fun(f, xs), FoTerm::Fun(g, ys)) => {
            if *f != *g {
                return Ok(false);
            }
            if xs.len() != ys.len() {
                return Ok(false);
            }
            let made = match_all(xs.as_slice(), ys.as_slice(), binds)?;
            Ok(made)
        }
        (FoTerm::Fun(_, _), FoTerm::Var(_)) => Ok(false),
    }
}

#[cycle(matching)]
pub fn match_all<'a>(
    patterns: &[FoTerm],
    ts: &'a [FoTerm],
    binds: &mut Rows<Held<'a>>,
) -> Result<bool, NoMemory>
    requires unique { Unique (as_binds binds.old) }
    requires lengths { length patterns.now ≡ length ts.now }
    ensures kept { IfOk result (λ made. take (length binds.old) binds.new ≡ binds.old) }
    ensures adds { IfOk result (λ made. MatchesAll patterns.now ts.now (as_binds binds.old) (as_binds binds.new) made) }
{
    for i in 0..patterns.len() {
        if !match_into(&patterns[i], &ts[i], binds)? {
            return Ok(false);
        }
    }
    Ok(true)
}

fn owned(alloc: Global, binds: &[Held]) -> Result<Rows<Bind>, NoMemory>
    ensures { IfOk result (λ out. out ≡ as_binds binds.now) }
{
    let mut out = Rows::begin(alloc);
    for b in binds {
        out.push(Bind {
            var: b.var,
            term: b.term.copy(alloc)?,
        })?;
    }
    Ok(out)
}

/// A substitution that makes the pattern the term; `None` where there is none.
pub fn matches(alloc: Global, pattern: &FoTerm, t: &FoTerm) -> Result<Option<Subst>, NoMemory>
    ensures { IfOk result (λ u. MatchOf pattern.now t.now u) }
{
    let mut binds = Rows::begin(alloc);
    if match_into(pattern, t, &mut binds)? {
        Ok(Some(Subst {
            binds: owned(alloc, binds.as_slice())?,
        }))
    } else {
        Ok(None)
    }
}
