ghost use Rattle.std.specs.Prelude.{◌≡◌, ◌+◌, ◌-◌, ◌≤◌, ◌<◌, ◌∷◌, [], ◌++◌, List, Some, slice_get, false, IfOk, OnOk};
ghost use Rattle.std.specs.Option.{option_map};
ghost use Rattle.theory_terms.specs.Meanings.{depth as depth_of};
ghost use Rattle.theory_print.specs.Lexemes.{Lexeme, Name, laid};
ghost use Rattle.theory_print.specs.Names.{variable};
ghost use Rattle.theory_print.specs.Shapes.{Apply, Equals, Not, Join, Bind, part_of};
ghost use Rattle.theory_print.specs.Views.{whole, both_whole, has_text as can_be_read};
ghost use Rattle.theory_print.specs.Written.{rank as rank_of, left_of as left_sort, right_of as right_sort, constant_name, binder_lexemes, sentence_lexemes};
ghost use Rattle.theory_print.specs.Printing.{declared_in, opening, closing, Writes};

use crate::lexeme::{put, put_binder, put_sign, put_truth, put_variable};
use crate::view::{View, view_of};
use crate::{Sort, Vocabulary, has_text, put_type};
use hol_terms::{Term, Ty};
use text_kit::{Bytes, NoMemory};
use theory_syntax::{Op, Quant};
use theory_terms::Decl;

/// The place of a sort among the sorts, from the inside out.
fn rank(sort: Sort) -> u32
    ensures { result ≡ rank_of sort }
{
    match sort {
        Sort::Atom => 0,
        Sort::App => 1,
        Sort::Eq => 2,
        Sort::Neg => 3,
        Sort::Chain(Op::And) => 4,
        Sort::Chain(Op::Or) => 5,
        Sort::Chain(Op::Imp) => 6,
        Sort::Formula => 7,
    }
}

/// The sort on the left of a sign.
fn left_of(op: Op) -> Sort
    ensures { result ≡ left_sort op }
{
    match op {
        Op::And => Sort::Neg,
        Op::Or => Sort::Chain(Op::And),
        Op::Imp => Sort::Chain(Op::Or),
    }
}

/// The sort on the right of a sign.
fn right_of(op: Op) -> Sort
    ensures { result ≡ right_sort op }
{
    match op {
        Op::And => Sort::Chain(Op::And),
        Op::Or => Sort::Chain(Op::Or),
        Op::Imp => Sort::Formula,
    }
}

/// Appends `(` where what has the first sort is no part of the second.
fn open(out: &mut Bytes, own: Sort, wanted: Sort) -> Result<(), NoMemory>
    ensures { OnOk result (out.new ≡ out.old ++ laid (opening own wanted)) }
{
    if rank(own) <= rank(wanted) {
        Ok(())
    } else {
        put(out, b"(")
    }
}

/// Appends `)` where `open` appends `(`.
fn close(out: &mut Bytes, own: Sort, wanted: Sort) -> Result<(), NoMemory>
    ensures { OnOk result (out.new ≡ out.old ++ laid (closing own wanted)) }
{
    if rank(own) <= rank(wanted) {
        Ok(())
    } else {
        put(out, b")")
    }
}

fn put_constant(out: &mut Bytes, consts: &[Decl], c: u32) -> Result<(), NoMemory>
    ensures { OnOk result (out.new ≡ out.old ++ laid (Name (constant_name (slice_get consts.now c)) ∷ [])) }
{
    match consts.get(c as usize) {
        None => put(out, b""),
        Some(decl) => put(out, decl.name.as_slice()),
    }
}

/// Appends the name of the variable with this index, with `depth` binders around.
fn put_bound(out: &mut Bytes, number: u32, depth: u32, i: u64) -> Result<(), NoMemory>
    ensures { OnOk result (out.new ≡ out.old ++ laid (Name (variable number (depth - (i + 1))) ∷ [])) }
{
    let outer = (depth as u64).saturating_sub(i).saturating_sub(1);
    put_variable(out, number, outer)
}

/// Appends a binder with its variable and its type, up to the dot.
fn put_head(
    out: &mut Bytes,
    names: &Vocabulary,
    depth: u32,
    q: Quant,
    ty: &Ty,
) -> Result<(), NoMemory>
    ensures { OnOk result (out.new ≡ out.old ++ laid (binder_lexemes names.now.number (declared_in names.now) depth q ty.now)) }
{
    put_binder(out, q)?;
    put_variable(out, names.number, depth as u64)?;
    put(out, b":")?;
    put_type(out, names.types, ty)?;
    put(out, b".")
}

/// Appends a term where a part of this sort is wanted, with `depth` binders around, where its tree is no deeper than
/// `room`.
#[cycle(terms)]
fn put_term(
    out: &mut Bytes,
    names: &Vocabulary,
    room: u32,
    depth: u32,
    sort: Sort,
    t: &Term,
) -> Result<(), NoMemory>
    requires { depth + room ≤ 1024 }
    ensures { OnOk result (Writes names.now depth sort (whole (part_of t.now)) (depth_of t.now ≤ room) out.old out.new) }
{
    if room == 0 {
        return Ok(());
    }
    let below = room - 1;
    match view_of(t) {
        View::Variable(i) => put_bound(out, names.number, depth, i),
        View::Constant(c) => put_constant(out, names.consts, c),
        View::Truth(value) => put_truth(out, value),
        View::Apply(f, x) => put_apply(out, names, below, depth, sort, f, x),
        View::Equals(a, b) => put_equals(out, names, below, depth, sort, a, b),
        View::Not(a) => put_not(out, names, below, depth, sort, a),
        View::Join(op, a, b) => put_join(out, names, below, depth, sort, op, a, b),
        View::Bind(q, ty, body) => put_bind(out, names, below, depth, sort, q, ty, body),
        View::Unwritten => Ok(()),
    }
}

#[cycle(terms)]
fn put_apply(
    out: &mut Bytes,
    names: &Vocabulary,
    room: u32,
    depth: u32,
    sort: Sort,
    f: &Term,
    x: &Term,
) -> Result<(), NoMemory>
    requires { depth + room < 1024 }
    ensures { OnOk result (Writes names.now depth sort (both_whole Apply (part_of f.now) (part_of x.now)) ((depth_of f.now ≤ room) × (depth_of x.now ≤ room)) out.old out.new) }
{
    open(out, Sort::App, sort)?;
    put_term(out, names, room, depth, Sort::App, f)?;
    put_term(out, names, room, depth, Sort::Atom, x)?;
    close(out, Sort::App, sort)
}

#[cycle(terms)]
fn put_equals(
    out: &mut Bytes,
    names: &Vocabulary,
    room: u32,
    depth: u32,
    sort: Sort,
    a: &Term,
    b: &Term,
) -> Result<(), NoMemory>
    requires { depth + room < 1024 }
    ensures { OnOk result (Writes names.now depth sort (both_whole Equals (part_of a.now) (part_of b.now)) ((depth_of a.now ≤ room) × (depth_of b.now ≤ room)) out.old out.new) }
{
    open(out, Sort::Eq, sort)?;
    put_term(out, names, room, depth, Sort::App, a)?;
    put(out, b"=")?;
    put_term(out, names, room, depth, Sort::App, b)?;
    close(out, Sort::Eq, sort)
}

#[cycle(terms)]
fn put_not(
    out: &mut Bytes,
    names: &Vocabulary,
    room: u32,
    depth: u32,
    sort: Sort,
    a: &Term,
) -> Result<(), NoMemory>
    requires { depth + room < 1024 }
    ensures { OnOk result (Writes names.now depth sort (option_map Not (whole (part_of a.now))) (depth_of a.now ≤ room) out.old out.new) }
{
    open(out, Sort::Neg, sort)?;
    put(out, b"~")?;
    put_term(out, names, room, depth, Sort::Neg, a)?;
    close(out, Sort::Neg, sort)
}

#[cycle(terms)]
fn put_join(
    out: &mut Bytes,
    names: &Vocabulary,
    room: u32,
    depth: u32,
    sort: Sort,
    op: Op,
    a: &Term,
    b: &Term,
) -> Result<(), NoMemory>
    requires { depth + room < 1024 }
    ensures { OnOk result (Writes names.now depth sort (both_whole (Join op) (part_of a.now) (part_of b.now)) ((depth_of a.now ≤ room) × (depth_of b.now ≤ room)) out.old out.new) }
{
    open(out, Sort::Chain(op), sort)?;
    put_term(out, names, room, depth, left_of(op), a)?;
    put_sign(out, op)?;
    put_term(out, names, room, depth, right_of(op), b)?;
    close(out, Sort::Chain(op), sort)
}

#[cycle(terms)]
fn put_bind(
    out: &mut Bytes,
    names: &Vocabulary,
    room: u32,
    depth: u32,
    sort: Sort,
    q: Quant,
    ty: &Ty,
    body: &Term,
) -> Result<(), NoMemory>
    requires { depth + room < 1024 }
    ensures { OnOk result (Writes names.now depth sort (option_map (Bind q ty.now) (whole (part_of body.now))) (depth_of body.now ≤ room) out.old out.new) }
{
    open(out, Sort::Formula, sort)?;
    put_head(out, names, depth, q, ty)?;
    put_term(out, names, room, depth + 1, Sort::Formula, body)?;
    close(out, Sort::Formula, sort)
}

/// Appends a term that stands alone, with the fewest brackets, a blank behind each of its tokens, and says whether
/// some text has it (`has_text`). Nothing is appended where none has.
///
/// A sentence that some text reads as is read again from these bytes, where the names are declared and no constant's
/// name begins as the names of bound variables do (`fresh_number`). Want of memory may leave a part appended.
pub fn put_sentence(out: &mut Bytes, names: &Vocabulary, t: &Term) -> Result<bool, NoMemory>
    ensures told { IfOk result (λ b. b ≡ can_be_read t.now) }
    ensures text { OnOk result ((xs : List Lexeme) → sentence_lexemes names.now.number (declared_in names.now) t.now ≡ Some xs → depth_of t.now ≤ 1024 → out.new ≡ out.old ++ laid xs) }
    ensures none { OnOk result (can_be_read t.now ≡ false → out.new ≡ out.old) }
{
    if has_text(t) {
        put_term(out, names, 1024, 0, Sort::Formula, t)?;
        Ok(true)
    } else {
        Ok(false)
    }
}
