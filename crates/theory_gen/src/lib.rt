//! Makes a theory of any number of facts, each of which follows from the one before.
#![tactic(auto)]

ghost use Rattle.std.specs.Prelude.{◌≡◌, ◌++◌, ◌≤◌, IfOk, OnOk};
ghost use Rattle.theory_gen.specs.Generated.{constant, fact, generated, goal};

use std::alloc::Global;
use text_kit::{Bytes, NoMemory, put_decimal};

/// The place of the last constant that a goal names.
const LAST_GOAL: u32 = 12;

fn put_constant(out: &mut Bytes, i: u32) -> Result<(), NoMemory>
    ensures { OnOk result (out.new ≡ out.old ++ constant i) }
{
    out.append(b"const c")?;
    put_decimal(out, i as u64)?;
    out.append(b" : bool;\n")
}

fn put_fact(out: &mut Bytes, i: u32) -> Result<(), NoMemory>
    ensures { OnOk result (out.new ≡ out.old ++ fact i) }
{
    if i == 0 {
        return out.append(b"fact f0 : c0;\n");
    }
    out.append(b"fact f")?;
    put_decimal(out, i as u64)?;
    out.append(b" : c")?;
    put_decimal(out, i as u64 - 1)?;
    out.append(b" ==> c")?;
    put_decimal(out, i as u64)?;
    out.append(b";\n")
}

fn put_goal(out: &mut Bytes, n: u32) -> Result<(), NoMemory>
    requires { 1 ≤ n }
    ensures { OnOk result (out.new ≡ out.old ++ goal n) }
{
    out.append(b"goal g : c")?;
    put_decimal(out, (n - 1).min(LAST_GOAL) as u64)?;
    out.append(b";\n")
}

/// Makes the text of the theory with `n` constants, `n` facts and one goal, 1 to 20,000 of them.
///
/// The constants are declared first. The first fact is the first constant, and each later one says that its constant
/// follows from the one before. The goal is the last constant, at most the thirteenth.
pub fn make(alloc: Global, n: u32) -> Result<Bytes, NoMemory>
    requires some { 1 ≤ n }
    requires few { n ≤ 20000 }
    ensures { IfOk result (λ text. text ≡ generated n) }
{
    let mut out = Bytes::begin(alloc);
    for i in 0..n {
        put_constant(&mut out, i)?;
    }
    for j in 0..n {
        put_fact(&mut out, j)?;
    }
    put_goal(&mut out, n)?;
    Ok(out)
}

#[cfg(test)]
mod tests {
    use super::make;
    use std::test::Fail;

    #[test]
    fn two_facts(rt: HostRuntime) -> Result<(), Fail> {
        let text =
            b"const c0 : bool;\nconst c1 : bool;\nfact f0 : c0;\nfact f1 : c0 ==> c1;\ngoal g : c1;\n";
        match make(rt.alloc(), 2) {
            Ok(made) => assert!(rt; made.as_slice() == text.as_slice()),
            Err(_) => assert!(rt; false),
        }
        Ok(())
    }
}
