ghost use Rattle.std.specs.Prelude.{◌≡◌, ◌+◌, ◌-◌, ◌^◌, ◌<◌, ◌∷◌, ◌++◌, length, take, map, IfOk, OnErr};
ghost use Rattle.std.specs.Bool.{MatchBool};
ghost use Rattle.fo_terms.specs.Weight.{size_of, size_of_all, atom_size};
ghost use Rattle.fo_cells.specs.Cells.{cells_of, joined, symbol_cells, atom_cells};

use crate::{Cell, Cells};
use fo_terms::{Atom, FoTerm};
use text_kit::NoMemory;

/// The greatest number that a cell can say.
const MOST: usize = 65_535;

/// Appends the cells of a term, which say their numbers in 16 bits. A term of more than 65,535 symbols and variables is given up; then,
/// as for want of memory, some of its cells may stand behind what was there.
#[cycle(writing)]
pub fn put_term(t: &FoTerm, out: &mut Cells) -> Result<bool, NoMemory>
    ensures written { IfOk result (λ r. MatchBool r (out.new ≡ out.old ++ cells_of t.now) (2 ^ 16 - 1 < size_of t.now)) }
    ensures kept { take (length out.old) out.new ≡ out.old }
{
    match t {
        FoTerm::Var(x) => {
            out.push(Cell::Var(*x))?;
            Ok(true)
        }
        FoTerm::Fun(f, args) => put_symbol(*f, args.as_slice(), out),
    }
}

#[cycle(writing)]
fn put_symbol(symbol: u64, args: &[FoTerm], out: &mut Cells) -> Result<bool, NoMemory>
    ensures written { IfOk result (λ r. MatchBool r (out.new ≡ out.old ++ symbol_cells symbol (map cells_of args.now)) (2 ^ 16 - 1 < size_of_all args.now + 1)) }
    ensures kept { take (length out.old) out.new ≡ out.old }
{
    if args.len() > MOST {
        return Ok(false);
    }
    let arity = args.len() as u16;
    let at = out.len();
    out.push(Cell::Fun {
        arity,
        size: 0,
        symbol,
    })?;
    if !put_all(args, &mut *out)? {
        return Ok(false);
    }
    let size = out.len() - at;
    if size > MOST {
        return Ok(false);
    }
    out.set(
        at,
        Cell::Fun {
            arity,
            size: size as u16,
            symbol,
        },
    );
    Ok(true)
}

#[cycle(writing)]
fn put_all(terms: &[FoTerm], out: &mut Cells) -> Result<bool, NoMemory>
    ensures written { IfOk result (λ r. MatchBool r (out.new ≡ out.old ++ joined (map cells_of terms.now)) (2 ^ 16 - 1 < size_of_all terms.now)) }
    ensures kept { take (length out.old) out.new ≡ out.old }
{
    for t in terms {
        if !put_term(t, &mut *out)? {
            return Ok(false);
        }
    }
    Ok(true)
}

fn put_terms(a: &Atom, out: &mut Cells) -> Result<bool, NoMemory>
    ensures written { IfOk result (λ r. MatchBool r (out.new ≡ out.old ++ atom_cells a.now) (2 ^ 16 - 1 < atom_size a.now)) }
    ensures kept { take (length out.old) out.new ≡ out.old }
{
    match a {
        Atom::Holds(t) => put_term(t, out),
        Atom::Eq(s, t) => {
            if !put_term(s, &mut *out)? {
                return Ok(false);
            }
            put_term(t, out)
        }
    }
}

/// Appends the cells of an atom, or gives it up where a term of it has more than 65,535 symbols and variables. Then, as for want of memory, the
/// row stays as it was.
pub fn put_atom(a: &Atom, out: &mut Cells) -> Result<bool, NoMemory>
    ensures written { IfOk result (λ r. MatchBool r (out.new ≡ out.old ++ atom_cells a.now) ((2 ^ 16 - 1 < atom_size a.now) × (out.new ≡ out.old))) }
    ensures err { OnErr result (out.new ≡ out.old) }
{
    let start = out.len();
    match put_terms(a, &mut *out) {
        Ok(true) => Ok(true),
        Ok(false) => {
            out.cut(start);
            Ok(false)
        }
        Err(NoMemory) => {
            out.cut(start);
            Err(NoMemory)
        }
    }
}
