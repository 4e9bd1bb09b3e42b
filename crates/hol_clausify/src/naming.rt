ghost use Rattle.std.specs.Prelude.{◌≡◌, ◌∷◌, ◌++◌, map, IfOk, OnOk};
ghost use Rattle.std.specs.FinSet as set;
ghost use Rattle.hol_terms.specs.Formulas.{IsFormula};
ghost use Rattle.kernel_rules.specs.Connectives.{neg, equal, all, some, chosen, lambda as lambda_of};
ghost use Rattle.kernel_rules.specs.Rules.{seq};
ghost use Rattle.hol_kernel.specs.Growth.{Extends, Gives, SameFacts};
ghost use Rattle.formula_clauses.specs.Choices.{variables as variables_of, closed_over, applied_to};
ghost use Rattle.hol_clausify.specs.Refutations.{chosen_value};
ghost use Rattle.hol_clausify.specs.Laws.{head_paths};

use formula_clauses::{Variable, apply_to, close, variables_in};
use hol_derived::beta_expand;
use hol_kernel::{Log, ThmId};
use hol_terms::{Konst, Term, Ty, copy, copy_ty};
use kernel_rules::{apply, equation, lambda, negation};
use std::alloc::Global;
use text_kit::{NoMemory, Rows};

/// The path to the redex at the head of an equation's right side, which is applied to so many more variables.
fn path_to_head(alloc: Global, rest: &[Variable]) -> Result<Rows<u8>, NoMemory>
    ensures { IfOk result (λ p. p ≡ 1 ∷ map (λ v. 0) rest.now) }
{
    let mut path = Rows::begin(alloc);
    path.push(1)?;
    for _variable in rest {
        path.push(0)?;
    }
    Ok(path)
}

/// Appends the paths to the redexes of an equation whose right side is `(\x1..xn. t) x1 .. xn`, the outermost lambda's first.
fn put_paths(
    alloc: Global,
    paths: &mut Rows<Rows<u8>>,
    variables: &[Variable],
) -> Result<(), NoMemory>
    ensures { OnOk result (paths.new ≡ paths.old ++ map (λ p. 1 ∷ p) (head_paths variables.now)) }
{
    match variables {
        [] => Ok(()),
        [_, rest @ ..] => {
            let path = path_to_head(alloc, rest)?;
            paths.push(path)?;
            put_paths(alloc, paths, rest)
        }
    }
}

/// These paths.
fn paths_to_redexes(alloc: Global, variables: &Rows<Variable>) -> Result<Rows<Rows<u8>>, NoMemory>
    ensures { IfOk result (λ ps. ps ≡ map (λ p. 1 ∷ p) (head_paths variables.now)) }
{
    let mut paths = Rows::begin(alloc);
    put_paths(alloc, &mut paths, variables.as_slice())?;
    Ok(paths)
}

/// What is chosen for a property, the equation that names it, and the paths to the equation's redexes.
#[derive(Drop)]
struct Naming {
    chosen: Term,
    equation: Term,
    paths: Rows<Rows<u8>>,
}

/// `(\x1..xn. t) x1 .. xn`
fn closed_again(alloc: Global, vs: &Rows<Variable>, t: &Term) -> Result<Term, NoMemory>
    ensures { IfOk result (λ r. r ≡ applied_to (closed_over vs.now t.now) vs.now) }
{
    let closed = close(alloc, vs.as_slice(), t)?;
    apply_to(alloc, closed, vs.as_slice())
}

/// `c = (\x1..xn. c) x1 .. xn`
fn equation_for(alloc: Global, ty: &Ty, vs: &Rows<Variable>, c: &Term) -> Result<Term, NoMemory>
    ensures { IfOk result (λ e. e ≡ equal ty.now c.now (applied_to (closed_over vs.now c.now) vs.now)) }
{
    let value = closed_again(alloc, vs, c)?;
    equation(alloc, copy_ty(ty)?, c, &value)
}

/// The value that is chosen for `f`.
fn choice(alloc: Global, ty: &Ty, f: &Term) -> Result<Term, NoMemory>
    ensures { IfOk result (λ t. t ≡ chosen ty.now f.now) }
{
    apply(alloc, Term::Con(Konst::Eps(copy_ty(ty)?)), copy(f)?)
}

/// The naming of that value.
fn naming_of(alloc: Global, ty: &Ty, f: &Term) -> Result<Naming, NoMemory>
    ensures chosen { IfOk result (λ n. n.chosen ≡ chosen ty.now f.now) }
    ensures equation { IfOk result (λ n. n.equation ≡ equal ty.now (chosen ty.now f.now) (chosen_value ty.now f.now)) }
    ensures paths { IfOk result (λ n. n.paths ≡ map (λ p. 1 ∷ p) (head_paths (variables_of f.now))) }
{
    let vs = variables_in(alloc, f)?;
    let chosen = choice(alloc, ty, f)?;
    let equation = equation_for(alloc, ty, &vs, &chosen)?;
    let paths = paths_to_redexes(alloc, &vs)?;
    Ok(Naming {
        chosen,
        equation,
        paths,
    })
}

/// `{} : c = d`, by the equation's redexes.
#[tactic(none)]
fn contracted(log: &mut Log, ty: &Ty, f: &Term, naming: &Naming) -> Result<ThmId, NoMemory>
    requires whole { IsFormula log.old.env.sig (some ty.now f.now) }
    requires chosen { naming.now.chosen ≡ chosen ty.now f.now }
    requires equation { naming.now.equation ≡ equal ty.now (chosen ty.now f.now) (chosen_value ty.now f.now) }
    requires paths { naming.now.paths ≡ map (λ p. 1 ∷ p) (head_paths (variables_of f.now)) }
    ensures kept { Extends log.old log.new }
    ensures facts { SameFacts log.old log.new }
    ensures gives { IfOk result (λ r. Gives log.new r.0 (seq set.empty (equal ty.now (chosen ty.now f.now) (chosen_value ty.now f.now)))) }
{
    let same = log.refl(&naming.chosen)?;
    beta_expand(log, same, &naming.equation, &naming.paths)
}

/// `{} : c = d` for the value `c` that is chosen for `f`: `d` is `(\x1..xn. c) x1 .. xn`, where `x1 .. xn` are the variables of `f`,
/// ascending by number. This is the value that clauses have in the place of a variable of which something is to hold.
///
/// Six steps a variable, and one more; each has terms of about the size of `d`.
#[tactic(none)]
pub fn name_chosen(log: &mut Log, ty: &Ty, f: &Term) -> Result<ThmId, NoMemory>
    requires { IsFormula log.old.env.sig (some ty.now f.now) }
    ensures kept { Extends log.old log.new }
    ensures facts { SameFacts log.old log.new }
    ensures gives { IfOk result (λ r. Gives log.new r.0 (seq set.empty (equal ty.now (chosen ty.now f.now) (chosen_value ty.now f.now)))) }
{
    let naming = naming_of(log.allocator(), ty, f)?;
    let name = contracted(log, ty, f, &naming);
    drop(naming);
    name
}

/// `\x. ~b`
fn failure(alloc: Global, ty: &Ty, body: &Term) -> Result<Term, NoMemory>
    ensures { IfOk result (λ t. t ≡ lambda_of ty.now (neg body.now)) }
{
    lambda(alloc, copy_ty(ty)?, negation(alloc, body)?)
}

/// The same for the value that is chosen for `\x. ~b`, where `!x. b` may fail. `body` is `b`, in which the bound variable is the
/// index 0.
#[tactic(none)]
pub fn name_failing(log: &mut Log, ty: &Ty, body: &Term) -> Result<ThmId, NoMemory>
    requires { IsFormula log.old.env.sig (all ty.now (lambda_of ty.now body.now)) }
    ensures kept { Extends log.old log.new }
    ensures facts { SameFacts log.old log.new }
    ensures gives { IfOk result (λ r. Gives log.new r.0 (seq set.empty (equal ty.now (chosen ty.now (lambda_of ty.now (neg body.now))) (chosen_value ty.now (lambda_of ty.now (neg body.now)))))) }
{
    let property = failure(log.allocator(), ty, body)?;
    let name = name_chosen(log, ty, &property);
    drop(property);
    name
}
