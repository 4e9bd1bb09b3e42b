ghost use Rattle.std.specs.Prelude.{◌≡◌, [], ◌∷◌, Bool, true, false, not, IsTrue, IfOk, if◌then◌else◌};
ghost use Rattle.hyp_sets.specs.Sets.{only};
ghost use Rattle.hol_terms.specs.Types.{bool_ty};
ghost use Rattle.hol_terms.specs.Formulas.{IsFormula};
ghost use Rattle.kernel_rules.specs.Connectives.{verum, falsum, neg, equal, lambda};
ghost use Rattle.hol_kernel.specs.Growth.{Extends, SameFacts};
ghost use Rattle.hol_kernel.specs.Conditions.{IsGiven};
ghost use Rattle.formula_clauses.specs.Walks.{Clauses, truth as truth_of, literal, joined, appended, is_universal as universal_test, property as property_of};
ghost use Rattle.formula_clauses.specs.inner.Measures.{first_sign as first_sign_of, is_iff as iff_test, is_product};
ghost use Rattle.hol_clausify.specs.Places.{junction as junction_of, quantifier as quantified};
ghost use Rattle.hol_clausify.specs.Refutations.{refuted, leaf};
ghost use Rattle.hol_clausify.specs.inner.Matching.{matches};
ghost use Rattle.hol_clausify.specs.inner.Parts.{part_of, whole_of, IsReady, IsInstance, IsNamed, first_of, second_of, whole_of_both};
ghost use Rattle.hol_clausify.specs.inner.Refuting.{placed, AllFalse, AllRefuted, Refutes};

use crate::each::{refute_from_each, refute_from_each_with_each};
use crate::pair::Pair;
use crate::part::{Instance, Part};
use crate::values::{open_chosen, open_variable};
use hol_formulas::{Formula, Junction, Quantifier};
use hol_kernel::{Log, ThmId};
use hol_refutations::{atom, falsity, not_true};
use hol_terms::{Term, Ty};
use kernel_rules::{body, left, right};
use std::alloc::Global;
use text_kit::{NoMemory, Rows};

/// Theorems that refute the clauses of a place, in order, and the number of the next variable.
#[derive(Drop)]
pub struct Refutations {
    pub thms: Rows<ThmId>,
    pub next: u64,
}

/// The one theorem of one clause.
fn one(alloc: Global, th: ThmId, next: u64) -> Result<Refutations, NoMemory>
    ensures { IfOk result (λ r. (r.thms ≡ th ∷ []) × (r.next ≡ next)) }
{
    let mut thms = Rows::begin(alloc);
    thms.push(th)?;
    Ok(Refutations { thms, next })
}

/// `true`: it has no clause where it holds, and the empty one where it fails.
fn refute_truth(log: &mut Log, positive: bool, next: u64) -> Result<Refutations, NoMemory>
    ensures kept { Extends log.old log.new }
    ensures facts { SameFacts log.old log.new }
    ensures gives { IfOk result (λ r. Refutes log.new (only (placed positive verum)) (leaf (truth_of positive) next) r) }
{
    if positive {
        let thms = Rows::begin(log.allocator());
        return Ok(Refutations { thms, next });
    }
    let th = not_true(log)?;
    one(log.allocator(), th, next)
}

/// `false`: it has the empty clause where it holds, and none where it fails.
fn refute_falsehood(log: &mut Log, positive: bool, next: u64) -> Result<Refutations, NoMemory>
    ensures kept { Extends log.old log.new }
    ensures facts { SameFacts log.old log.new }
    ensures gives { IfOk result (λ r. Refutes log.new (only (placed positive falsum)) (leaf (truth_of (not positive)) next) r) }
{
    if !positive {
        let thms = Rows::begin(log.allocator());
        return Ok(Refutations { thms, next });
    }
    let th = falsity(log)?;
    one(log.allocator(), th, next)
}

/// An atom: its one clause is its literal.
fn refute_atom(log: &mut Log, positive: bool, t: &Term, next: u64) -> Result<Refutations, NoMemory>
    requires { IsFormula log.old.env.sig t.now }
    ensures kept { Extends log.old log.new }
    ensures facts { SameFacts log.old log.new }
    ensures gives { IfOk result (λ r. Refutes log.new (only (placed positive t.now)) (leaf (literal positive t.now) next) r) }
{
    let th = atom(log, t)?;
    one(log.allocator(), th, next)
}

/// A whole whose clauses are those of one part.
fn refute_one(log: &mut Log, part: Part, inner: &Refutations) -> Result<Refutations, NoMemory>
    requires ready { IsReady log.old part }
    requires refuted { AllFalse log.old inner.now.thms }
    ensures kept { Extends log.old log.new }
    ensures facts { SameFacts log.old log.new }
    ensures next { IfOk result (λ r. r.next ≡ inner.now.next) }
    ensures gives { IfOk result (λ r. (cs : Clauses) → AllRefuted log.old (only (part_of part.entry)) cs inner.now.thms → AllRefuted log.new (only (whole_of part.entry)) cs r.thms) }
{
    let mut thms = Rows::begin(log.allocator());
    refute_from_each(log, part, inner.thms.as_slice(), &mut thms)?;
    Ok(Refutations {
        thms,
        next: inner.next,
    })
}

/// A whole whose clauses are those of two parts.
fn refute_sum(
    log: &mut Log,
    first: Part,
    second: Part,
    one: &Refutations,
    two: &Refutations,
) -> Result<Refutations, NoMemory>
    requires first { IsReady log.old first }
    requires second { IsReady log.old second }
    requires same { whole_of first ≡ whole_of second }
    requires one { AllFalse log.old one.now.thms }
    requires two { AllFalse log.old two.now.thms }
    ensures kept { Extends log.old log.new }
    ensures facts { SameFacts log.old log.new }
    ensures next { IfOk result (λ r. r.next ≡ two.now.next) }
    ensures gives { IfOk result (λ r. (cs ds : Clauses) → AllRefuted log.old (only (part_of first.entry)) cs one.now.thms → AllRefuted log.old (only (part_of second.entry)) ds two.now.thms → AllRefuted log.new (only (whole_of first.entry)) (appended cs ds) r.thms) }
{
    let mut thms = Rows::begin(log.allocator());
    refute_from_each(log, first, one.thms.as_slice(), &mut thms)?;
    refute_from_each(log, second, two.thms.as_slice(), &mut thms)?;
    Ok(Refutations {
        thms,
        next: two.next,
    })
}

/// A whole whose clauses are those of one part, each joined with each of another.
fn refute_product(
    log: &mut Log,
    pair: Pair,
    a: &Term,
    b: &Term,
    one: &Refutations,
    two: &Refutations,
) -> Result<Refutations, NoMemory>
    requires a { IsFormula log.old.env.sig a.now }
    requires b { IsFormula log.old.env.sig b.now }
    requires whole { IsFormula log.old.env.sig (whole_of_both pair a.now b.now) }
    requires one { AllFalse log.old one.now.thms }
    requires two { AllFalse log.old two.now.thms }
    ensures kept { Extends log.old log.new }
    ensures facts { SameFacts log.old log.new }
    ensures next { IfOk result (λ r. r.next ≡ two.now.next) }
    ensures gives { IfOk result (λ r. (cs ds : Clauses) → AllRefuted log.old (only (first_of pair a.now)) cs one.now.thms → AllRefuted log.old (only (second_of pair b.now)) ds two.now.thms → AllRefuted log.new (only (whole_of_both pair a.now b.now)) (joined cs ds) r.thms) }
{
    let mut thms = Rows::begin(log.allocator());
    let lefts = one.thms.as_slice();
    refute_from_each_with_each(log, pair, a, b, lefts, two.thms.as_slice(), &mut thms)?;
    Ok(Refutations {
        thms,
        next: two.next,
    })
}

/// A whole whose clauses are those of two products.
fn refute_products(
    log: &mut Log,
    first: Pair,
    second: Pair,
    a: &Term,
    b: &Term,
    one: &Refutations,
    two: &Refutations,
    three: &Refutations,
    four: &Refutations,
) -> Result<Refutations, NoMemory>
    requires a { IsFormula log.old.env.sig a.now }
    requires b { IsFormula log.old.env.sig b.now }
    requires whole { IsFormula log.old.env.sig (whole_of_both first a.now b.now) }
    requires same { whole_of_both first a.now b.now ≡ whole_of_both second a.now b.now }
    requires one { AllFalse log.old one.now.thms }
    requires two { AllFalse log.old two.now.thms }
    requires three { AllFalse log.old three.now.thms }
    requires four { AllFalse log.old four.now.thms }
    ensures kept { Extends log.old log.new }
    ensures facts { SameFacts log.old log.new }
    ensures next { IfOk result (λ r. r.next ≡ four.now.next) }
    ensures gives { IfOk result (λ r. (cs ds es fs : Clauses) → AllRefuted log.old (only (first_of first a.now)) cs one.now.thms → AllRefuted log.old (only (second_of first b.now)) ds two.now.thms → AllRefuted log.old (only (first_of second a.now)) es three.now.thms → AllRefuted log.old (only (second_of second b.now)) fs four.now.thms → AllRefuted log.new (only (whole_of_both first a.now b.now)) (appended (joined cs ds) (joined es fs)) r.thms) }
{
    let mut thms = Rows::begin(log.allocator());
    let ones = one.thms.as_slice();
    refute_from_each_with_each(log, first, a, b, ones, two.thms.as_slice(), &mut thms)?;
    let threes = three.thms.as_slice();
    refute_from_each_with_each(log, second, a, b, threes, four.thms.as_slice(), &mut thms)?;
    Ok(Refutations {
        thms,
        next: four.next,
    })
}

/// A negation: where it holds, its hypothesis is that of what it denies.
fn refute_negation(
    log: &mut Log,
    positive: bool,
    a: &Term,
    inner: Refutations,
) -> Result<Refutations, NoMemory>
    requires a { IsFormula log.old.env.sig a.now }
    requires refuted { AllFalse log.old inner.thms }
    ensures kept { Extends log.old log.new }
    ensures facts { SameFacts log.old log.new }
    ensures next { IfOk result (λ r. r.next ≡ inner.next) }
    ensures gives { IfOk result (λ r. (cs : Clauses) → AllRefuted log.old (only (placed (not positive) a.now)) cs inner.thms → AllRefuted log.new (only (placed positive (neg a.now))) cs r.thms) }
{
    if positive {
        return Ok(inner);
    }
    refute_one(log, Part::NotNot(a), &inner)
}

/// The sign with which the left side is met first.
fn first_sign(junction: Junction, positive: bool) -> bool
    ensures { result ≡ first_sign_of junction positive }
{
    match junction {
        Junction::And => positive,
        Junction::Or => positive,
        Junction::Imp => !positive,
        Junction::Iff => !positive,
    }
}

fn is_iff(junction: Junction) -> bool
    ensures { result ≡ iff_test junction }
{
    match junction {
        Junction::And => false,
        Junction::Or => false,
        Junction::Imp => false,
        Junction::Iff => true,
    }
}

/// A conjunction, a disjunction or an implication.
fn refute_junction(
    log: &mut Log,
    junction: Junction,
    positive: bool,
    a: &Term,
    b: &Term,
    one: &Refutations,
    two: &Refutations,
) -> Result<Refutations, NoMemory>
    requires other { iff_test junction ≡ false }
    requires whole { IsFormula log.old.env.sig (junction_of junction a.now b.now) }
    requires one { AllFalse log.old one.now.thms }
    requires two { AllFalse log.old two.now.thms }
    ensures kept { Extends log.old log.new }
    ensures facts { SameFacts log.old log.new }
    ensures next { IfOk result (λ r. r.next ≡ two.now.next) }
    ensures gives { IfOk result (λ r. (cs ds : Clauses) → AllRefuted log.old (only (placed (first_sign_of junction positive) a.now)) cs one.now.thms → AllRefuted log.old (only (placed positive b.now)) ds two.now.thms → AllRefuted log.new (only (placed positive (junction_of junction a.now b.now))) ((if is_product junction positive then joined else appended) cs ds) r.thms) }
{
    match (junction, positive) {
        (Junction::And, true) => {
            refute_sum(log, Part::AndLeft(a, b), Part::AndRight(a, b), one, two)
        }
        (Junction::And, false) => refute_product(log, Pair::NotAnd, a, b, one, two),
        (Junction::Or, true) => refute_product(log, Pair::Or, a, b, one, two),
        (Junction::Or, false) => {
            refute_sum(log, Part::NotOrLeft(a, b), Part::NotOrRight(a, b), one, two)
        }
        (Junction::Imp, true) => refute_product(log, Pair::Implies, a, b, one, two),
        (Junction::Imp, false) => {
            refute_sum(
                log,
                Part::NotImpliesLeft(a, b),
                Part::NotImpliesRight(a, b),
                one,
                two,
            )
        }
        (Junction::Iff, _) => unreachable!(),
    }
}

/// An equation at bool, whose clauses are those of two products, where it holds and where it fails.
fn refute_equation(
    log: &mut Log,
    positive: bool,
    a: &Term,
    b: &Term,
    one: &Refutations,
    two: &Refutations,
    three: &Refutations,
    four: &Refutations,
) -> Result<Refutations, NoMemory>
    requires whole { IsFormula log.old.env.sig (equal bool_ty a.now b.now) }
    requires one { AllFalse log.old one.now.thms }
    requires two { AllFalse log.old two.now.thms }
    requires three { AllFalse log.old three.now.thms }
    requires four { AllFalse log.old four.now.thms }
    ensures kept { Extends log.old log.new }
    ensures facts { SameFacts log.old log.new }
    ensures next { IfOk result (λ r. r.next ≡ four.now.next) }
    ensures gives { IfOk result (λ r. (cs ds es fs : Clauses) → AllRefuted log.old (only (placed (not positive) a.now)) cs one.now.thms → AllRefuted log.old (only b.now) ds two.now.thms → AllRefuted log.old (only (placed positive a.now)) es three.now.thms → AllRefuted log.old (only (neg b.now)) fs four.now.thms → AllRefuted log.new (only (placed positive (equal bool_ty a.now b.now))) (appended (joined cs ds) (joined es fs)) r.thms) }
{
    if positive {
        refute_products(
            log,
            Pair::EqualFirst,
            Pair::EqualSecond,
            a,
            b,
            one,
            two,
            three,
            four,
        )
    } else {
        refute_products(
            log,
            Pair::NotEqualFirst,
            Pair::NotEqualSecond,
            a,
            b,
            one,
            two,
            three,
            four,
        )
    }
}

/// A quantified formula of which each value gives a part, from the part of the next variable.
fn refute_with_variable(
    log: &mut Log,
    quantifier: Quantifier,
    x: Instance,
    inner: &Refutations,
) -> Result<Refutations, NoMemory>
    requires x { IsInstance x }
    requires whole { IsFormula log.old.env.sig (quantified quantifier x.ty.now (lambda x.ty.now x.body.now)) }
    requires value { IsGiven log.old.env.sig x.value.now x.ty.now }
    requires refuted { AllFalse log.old inner.now.thms }
    ensures kept { Extends log.old log.new }
    ensures facts { SameFacts log.old log.new }
    ensures next { IfOk result (λ r. r.next ≡ inner.now.next) }
    ensures gives { IfOk result (λ r. (s : Bool) (cs : Clauses) → universal_test quantifier s ≡ true → AllRefuted log.old (only (placed s x.entry.part.now)) cs inner.now.thms → AllRefuted log.new (only (placed s (quantified quantifier x.entry.ty.now (lambda x.entry.ty.now x.entry.body.now)))) cs r.thms) }
{
    match quantifier {
        Quantifier::All => refute_one(log, Part::AllAt(x), inner),
        Quantifier::Ex => refute_one(log, Part::NotSomeAt(x), inner),
    }
}

/// A quantified formula of which some value gives a part, from the part of the chosen one.
fn refute_with_chosen(
    log: &mut Log,
    quantifier: Quantifier,
    x: Instance,
    name: ThmId,
    inner: &Refutations,
) -> Result<Refutations, NoMemory>
    requires x { IsInstance x }
    requires whole { IsFormula log.old.env.sig (quantified quantifier x.ty.now (lambda x.ty.now x.body.now)) }
    requires name { IsNamed log.old name x (property_of quantifier x.ty.now x.body.now) }
    requires refuted { AllFalse log.old inner.now.thms }
    ensures kept { Extends log.old log.new }
    ensures facts { SameFacts log.old log.new }
    ensures next { IfOk result (λ r. r.next ≡ inner.now.next) }
    ensures gives { IfOk result (λ r. (s : Bool) (cs : Clauses) → universal_test quantifier s ≡ false → AllRefuted log.old (only (placed s x.entry.part.now)) cs inner.now.thms → AllRefuted log.new (only (placed s (quantified quantifier x.entry.ty.now (lambda x.entry.ty.now x.entry.body.now)))) cs r.thms) }
{
    match quantifier {
        Quantifier::All => refute_one(log, Part::NotAllNamed(x, name), inner),
        Quantifier::Ex => refute_one(log, Part::SomeNamed(x, name), inner),
    }
}

fn is_universal(quantifier: Quantifier, positive: bool) -> bool
    ensures { result ≡ universal_test quantifier positive }
{
    match quantifier {
        Quantifier::All => positive,
        Quantifier::Ex => !positive,
    }
}

/// Theorems that refute the clauses of a formula's place in the kernel, in the order of `formula_clauses`' walk. Each has the
/// place, or its negation where it stands with the negative sign, and the denied literals of its clause as hypotheses.
///
/// `f` tells the connectives of the term `t` down to its atoms. A clause costs one to seven steps at each place on the way to it,
/// a chosen value six for each of its variables besides.
#[tactic(none)]
pub fn refute(
    log: &mut Log,
    f: &Formula,
    positive: bool,
    t: &Term,
    next: u64,
) -> Result<Refutations, NoMemory>
    requires formula { IsFormula log.old.env.sig t.now }
    requires matches { IsTrue (matches f.now t.now) }
    ensures kept { Extends log.old log.new }
    ensures facts { SameFacts log.old log.new }
    ensures gives { IfOk result (λ r. Refutes log.new (only (placed positive t.now)) (refuted f.now positive t.now next) r) }
{
    match f {
        Formula::True => refute_truth(log, positive, next),
        Formula::False => refute_falsehood(log, positive, next),
        Formula::Atom(_) => refute_atom(log, positive, t, next),
        Formula::Not(a) => {
            let inner = refute(log, a.get(), !positive, right(t), next)?;
            refute_negation(log, positive, right(t), inner)
        }
        Formula::Two(junction, a, b) => {
            let first = first_sign(*junction, positive);
            let one = refute(log, a.get(), first, left(t), next)?;
            if !is_iff(*junction) {
                let two = refute(log, b.get(), positive, right(t), one.next)?;
                return refute_junction(log, *junction, positive, left(t), right(t), &one, &two);
            }
            let two = refute(log, b.get(), true, right(t), one.next)?;
            let three = refute(log, a.get(), positive, left(t), two.next)?;
            let four = refute(log, b.get(), false, right(t), three.next)?;
            refute_equation(log, positive, left(t), right(t), &one, &two, &three, &four)
        }
        Formula::Quantified(quantifier, ty, _, b) => {
            let property = right(t);
            let under = body(property);
            if is_universal(*quantifier, positive) {
                let opened = open_variable(log.allocator(), ty, under, next)?;
                let part = opened.part.get();
                let value = opened.value.get();
                let inner = refute(log, b.get(), positive, part, opened.next)?;
                let x = Instance {
                    ty,
                    property,
                    body: under,
                    value,
                    part,
                };
                return refute_with_variable(log, *quantifier, x, &inner);
            }
            let opened = open_chosen(log, *quantifier, ty, property, under)?;
            let part = opened.part.get();
            let value = opened.value.get();
            let inner = refute(log, b.get(), positive, part, next)?;
            let x = Instance {
                ty,
                property,
                body: under,
                value,
                part,
            };
            refute_with_chosen(log, *quantifier, x, opened.name, &inner)
        }
    }
}
