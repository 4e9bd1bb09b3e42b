ghost use Rattle.std.specs.Prelude.{◌≡◌, ◌≤◌, [], ◌∷◌, map, length, IfOk};
ghost use Rattle.fo_unify.specs.Lookup.{term_of};
ghost use Rattle.fo_cells.specs.declared.cell.Cell.TheVariants.{Var};
ghost use Rattle.fo_cells.specs.Cells.{joined, symbol_cells};
ghost use Rattle.fo_light.specs.Written.{cells_put, Written};

use crate::symbol::{ROOM, close, open};
use fo_cells::{Cell, Cells};
use fo_terms::FoTerm;
use fo_unify::Bindings;
use text_kit::NoMemory;

fn put_variable(x: u64, out: &mut Cells) -> Result<bool, NoMemory>
    requires { length out.old ≤ 512 }
    ensures { IfOk result (λ r. Written out.old (Var x ∷ []) r out.new) }
{
    if out.len() >= ROOM {
        return Ok(false);
    }
    out.push(Cell::Var(x))?;
    Ok(true)
}

/// Appends the cells of a term with the unifier put through it, where there are at most 512 in all then. If not, it gives up at once, and
/// some cells may stand behind what was there. Nothing is looked at that isn't written.
#[cycle(putting)]
pub fn put_instance<'a>(
    unifier: &Bindings<'a>,
    t: &'a FoTerm,
    out: &mut Cells,
) -> Result<bool, NoMemory>
    requires { length out.old ≤ 512 }
    ensures { IfOk result (λ r. Written out.old (cells_put (term_of unifier.now) t.now) r out.new) }
{
    match unifier.look(t) {
        FoTerm::Var(x) => {
            let made = put_variable(*x, out)?;
            Ok(made)
        }
        FoTerm::Fun(f, args) => {
            let made = put_symbol(&*unifier, *f, args.as_slice(), out)?;
            Ok(made)
        }
    }
}

#[cycle(putting)]
fn put_symbol<'a>(
    unifier: &Bindings<'a>,
    symbol: u64,
    args: &'a [FoTerm],
    out: &mut Cells,
) -> Result<bool, NoMemory>
    requires { length out.old ≤ 512 }
    ensures { IfOk result (λ r. Written out.old (symbol_cells symbol (map (cells_put (term_of unifier.now)) args.now)) r out.new) }
{
    let at = out.len();
    if !open(symbol, args.len(), out)? {
        return Ok(false);
    }
    if !put_all(&*unifier, args, out)? {
        return Ok(false);
    }
    close(at, symbol, args.len(), out);
    Ok(true)
}

#[cycle(putting)]
fn put_all<'a>(
    unifier: &Bindings<'a>,
    terms: &'a [FoTerm],
    out: &mut Cells,
) -> Result<bool, NoMemory>
    requires { length out.old ≤ 512 }
    ensures { IfOk result (λ r. Written out.old (joined (map (cells_put (term_of unifier.now)) terms.now)) r out.new) }
{
    for t in terms {
        if !put_instance(&*unifier, t, out)? {
            return Ok(false);
        }
    }
    Ok(true)
}
