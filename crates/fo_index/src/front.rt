ghost use Rattle.std.specs.Prelude.{◌≡◌, ◌≤◌, length, map, IfOk};
ghost use Rattle.std.specs.List.{concat};
ghost use Rattle.fo_index.specs.Fronts.{front, marks};
ghost use Rattle.fo_index.specs.inner.Gathered.{Gathers};

use fo_terms::FoTerm;
use std::alloc::Global;
use text_kit::{NoMemory, Rows};

/// So many symbols of a front count.
const MOST: usize = 16;

// Appends the symbols before the first variable, and answers whether the walk goes on.
#[cycle(gathering)]
fn gather(t: &FoTerm, done: &mut Rows<u64>) -> Result<bool, NoMemory>
    requires { length done.old ≤ 16 }
    ensures { IfOk result (λ goes_on. Gathers done.old (marks t.now) goes_on done.new) }
{
    match t {
        FoTerm::Var(_) => Ok(false),
        FoTerm::Fun(f, args) => {
            if done.len() >= MOST {
                return Ok(false);
            }
            done.push(*f)?;
            gather_all(args.as_slice(), done)
        }
    }
}

// Goes on with these terms in turn.
#[cycle(gathering)]
fn gather_all(terms: &[FoTerm], done: &mut Rows<u64>) -> Result<bool, NoMemory>
    requires { length done.old ≤ 16 }
    ensures { IfOk result (λ goes_on. Gathers done.old (concat (map marks terms.now)) goes_on done.new) }
{
    for t in terms {
        if !gather(t, done)? {
            return Ok(false);
        }
    }
    Ok(true)
}

/// The front of a term.
pub(crate) fn front_of(alloc: Global, t: &FoTerm) -> Result<Rows<u64>, NoMemory>
    ensures { IfOk result (λ symbols. symbols ≡ front t.now) }
{
    let mut symbols = Rows::begin(alloc);
    gather(t, &mut symbols)?;
    Ok(symbols)
}
