ghost use Rattle.std.specs.Prelude.{◌≡◌, ◌∷◌, ◌++◌, ◌<◌, IsTrue, length, map, codes, IfOk, OnOk};
ghost use Rattle.theory_reader.specs.Names.{distinct};
ghost use Rattle.theory_reader.specs.Sound.{const_names};
ghost use Rattle.proof_syntax.specs.Names.{names_of};

use proof_terms::Lookup;
use std::alloc::Global;
use text_kit::{Bytes, NoMemory};
use theory_reader::{Decl, Theory};
use theory_terms::Names;

fn add_types<'t>(names: &mut Names<'t>, types: &'t [Bytes]) -> Result<(), NoMemory>
    requires { IsTrue (distinct (names.old ++ types.now)) }
    ensures { OnOk result (names.new ≡ names.old ++ types.now) }
{
    for name in types {
        names.add(name.as_slice())?;
    }
    Ok(())
}

fn add_consts<'t>(names: &mut Names<'t>, consts: &'t [Decl]) -> Result<(), NoMemory>
    requires { IsTrue (distinct (names.old ++ const_names consts.now)) }
    ensures { OnOk result (names.new ≡ names.old ++ const_names consts.now) }
{
    for decl in consts {
        names.add(decl.name.as_slice())?;
    }
    Ok(())
}

/// The base types, bool the first.
fn type_names<'t>(alloc: Global, types: &'t [Bytes]) -> Result<Names<'t>, NoMemory>
    requires { IsTrue (distinct (codes "bool" ∷ types.now)) }
    ensures { IfOk result (λ names. names ≡ codes "bool" ∷ types.now) }
{
    let mut names = Names::begin(alloc);
    names.add(b"bool")?;
    add_types(&mut names, types)?;
    Ok(names)
}

fn named_consts<'t>(alloc: Global, consts: &'t [Decl]) -> Result<Names<'t>, NoMemory>
    requires { IsTrue (distinct (const_names consts.now)) }
    ensures { IfOk result (λ names. names ≡ const_names consts.now) }
{
    let mut names = Names::begin(alloc);
    add_consts(&mut names, consts)?;
    Ok(names)
}

/// The names that a proof of the goal with this number may use.
pub fn lookup<'t>(alloc: Global, theory: &'t Theory, goal: u32) -> Result<Lookup<'t>, NoMemory>
    requires { goal < length theory.now.goals }
    ensures { IfOk result (λ names. names ≡ names_of theory.now goal) }
{
    let types = type_names(alloc, theory.types.as_slice())?;
    let consts = named_consts(alloc, theory.consts.as_slice())?;
    let facts = theory.seen_names(alloc, goal)?;
    Ok(Lookup::new(types, consts, facts))
}
