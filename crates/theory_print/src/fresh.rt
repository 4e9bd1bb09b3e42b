ghost use Rattle.std.specs.Prelude.{◌≡◌, ℕ, List, ◌∷◌, [], ◌++◌, ◌<◌, ◌≤◌, ◌^◌, All, length, is_some, true, false, OnOk, IfOk};
ghost use Rattle.std.specs.List.{prefix_len};
ghost use Rattle.theory_terms.specs.Words.{place};
ghost use Rattle.theory_print.specs.Names.{IsFirstFresh, beginning as beginning_of, is_before, front_of, Holds, IsFront, IsFirstFree};

use std::alloc::Global;
use text_kit::{Bytes, NoMemory, put_decimal};
use theory_terms::{Decl, Names};

/// The number of bytes before the first `_`.
fn before(name: &[u8]) -> usize
    ensures value { result ≡ prefix_len is_before name.now }
    ensures within { result ≤ length name.now }
{
    name.iter().take_while(|b| **b != b'_').count()
}

/// The front of a name, up to its first `_`.
fn front(name: &[u8]) -> &[u8]
    ensures { result.now ≡ front_of name.now }
{
    let before = before(name);
    if before < name.len() {
        &name[..before + 1]
    } else {
        name
    }
}

/// Keeps a front once.
fn hold<'t>(set: &mut Names<'t>, front: &'t [u8]) -> Result<(), NoMemory>
    ensures { OnOk result (Holds set.old front.now set.new) }
{
    match set.place(front) {
        Some(_) => Ok(()),
        None => set.add(front),
    }
}

/// The fronts of the names of constants.
fn fronts<'t>(alloc: Global, consts: &'t [Decl]) -> Result<Names<'t>, NoMemory>
    ensures all { IfOk result (λ set. All (λ d. is_some (place (front_of d.name) set) ≡ true) consts.now) }
    ensures only { IfOk result (λ set. (name : List ℕ) → is_some (place name set) ≡ true → IsFront name consts.now) }
{
    let mut set = Names::begin(alloc);
    for decl in consts {
        hold(&mut set, front(decl.name.as_slice()))?;
    }
    Ok(set)
}

/// What the names of bound variables begin with.
fn beginning(alloc: Global, number: u32) -> Result<Bytes, NoMemory>
    ensures { IfOk result (λ name. name ≡ beginning_of number) }
{
    let mut name = Bytes::begin(alloc);
    name.append(b"x")?;
    put_decimal(&mut name, number as u64)?;
    name.append(b"_")?;
    Ok(name)
}

/// The first number whose beginning isn't held. It is no greater than the number of names.
fn first_free(alloc: Global, set: &Names) -> Result<u32, NoMemory>
    ensures { IfOk result (λ k. IsFirstFree k set.now) }
{
    for number in 0..set.len() {
        let name = beginning(alloc, number)?;
        match set.place(name.as_slice()) {
            None => return Ok(number),
            Some(_) => {}
        }
    }
    Ok(set.len())
}

/// The first number for the names of bound variables, such that no constant's name begins as they do.
///
/// It is no greater than the number of constants, since each constant rules out one at most.
pub fn fresh_number(alloc: Global, consts: &[Decl]) -> Result<u32, NoMemory>
    ensures { IfOk result (λ k. IsFirstFresh k consts.now) }
{
    let set = fronts(alloc, consts)?;
    first_free(alloc, &set)
}
