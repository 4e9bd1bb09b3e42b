ghost use Rattle.std.specs.Prelude.{◌≡◌, ◌<◌, length, IfOk, ℕ, suc, true, false};
ghost use Rattle.tagged_lines.specs.TypedLiterals.{IsIn};
ghost use Rattle.hol_lift.specs.inner.Lifting.{parents, IsMarked, AreOrdered, AreWanted, Marks};

use fo_infer::{Line, Origin};
use std::alloc::Global;
use text_kit::{NoMemory, Rows};

/// As many marks, of which the last one is set.
fn last_marked(alloc: Global, count: usize) -> Result<Rows<bool>, NoMemory>
    ensures count { IfOk result (λ marks. length marks ≡ count) }
    ensures last { IfOk result (λ marks. (k : ℕ) → count ≡ suc k → IsMarked marks k) }
{
    let mut out = Rows::begin(alloc);
    for i in 0..count {
        out.push(i + 1 == count)?;
    }
    Ok(out)
}

/// Marks the lines that a line comes from.
fn mark_parents(origin: &Origin, marks: &mut Rows<bool>)
    requires { (i : ℕ) → IsIn (parents origin.now) i → i < length marks.old }
    ensures { Marks marks.old marks.new (parents origin.now) }
{
    match origin {
        Origin::Input { number: _ } => {}
        Origin::Alone { of, rule: _ } => marks.set(*of as usize, true),
        Origin::Pair {
            left,
            right,
            rule: _,
        } => {
            marks.set(*left as usize, true);
            marks.set(*right as usize, true);
        }
    }
}

/// The same, where the line is wanted itself.
fn mark_wanted(origin: &Origin, wanted: bool, marks: &mut Rows<bool>)
    requires { (i : ℕ) → IsIn (parents origin.now) i → i < length marks.old }
    ensures yes { wanted ≡ true → Marks marks.old marks.new (parents origin.now) }
    ensures no { wanted ≡ false → marks.new ≡ marks.old }
{
    if wanted {
        mark_parents(origin, marks);
    }
}

/// The lines from which the last one follows, marked: a walk from the last line back to the first.
pub fn wanted(alloc: Global, lines: &Rows<Line>) -> Result<Rows<bool>, NoMemory>
    requires { AreOrdered lines.now }
    ensures { IfOk result (λ marks. AreWanted lines.now marks) }
{
    let count = lines.len();
    let mut marks = last_marked(alloc, count)?;
    for back in 0..count {
        let k = count - back - 1;
        let own = *marks.at(k);
        mark_wanted(&lines.at(k).origin, own, &mut marks);
    }
    Ok(marks)
}
