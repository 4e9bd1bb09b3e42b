ghost use Rattle.std.specs.Prelude.{◌≡◌, ◌<◌, ◌≤◌, decimal, length, IfOk};
ghost use Rattle.slot_work.specs.Visible.{visible as visible_of};
ghost use Rattle.sledge_engine.specs.Orders.{child_words as words_of, sliced};
ghost use Rattle.sledge_engine.specs.inner.Planned.{ArePlanned, IsPlanned};

use crate::problem::numbers;
use mepo_filter::{select_par, slice_of};
use race_core::Order;
use std::alloc::Global;
use std::thread::Threads;
use text_kit::{Bytes, NoMemory, Rows, put_decimal};
use theory_reader::Theory;
use tptp_print::problem_text;

/// What a slot's child is started with, and how many facts its slice has chosen.
#[derive(Drop)]
pub(crate) struct Planned {
    pub order: Order,
    pub chosen: u64,
}

/// What the child of each slot is started with, and how many facts each slice has chosen.
#[derive(Drop)]
pub(crate) struct Plan {
    pub orders: Rows<Order>,
    pub chosen: Rows<u64>,
}

/// A goal of a theory, with the numbers of the facts that it may be proved from.
#[derive(Clone, Copy, Drop)]
pub(crate) struct Ground<'a> {
    pub theory: &'a Theory,
    pub goal: u32,
    pub visible: &'a Rows<u32>,
}

/// The digits of a number.
fn digits(alloc: Global, n: u32) -> Result<Bytes, NoMemory>
    ensures { IfOk result (λ out. out ≡ decimal n) }
{
    let mut out = Bytes::begin(alloc);
    put_decimal(&mut out, n as u64)?;
    Ok(out)
}

/// The words of a child.
fn child_words(alloc: Global, prover: &Bytes, age: u32) -> Result<Rows<Bytes>, NoMemory>
    ensures { IfOk result (λ args. args ≡ words_of prover.now age) }
{
    let mut args = Rows::begin(alloc);
    args.push(prover.copy(alloc)?)?;
    args.push(Bytes::from_slice(alloc, b"--budget")?)?;
    args.push(Bytes::from_slice(alloc, b"4000")?)?;
    args.push(Bytes::from_slice(alloc, b"--age")?)?;
    args.push(digits(alloc, age)?)?;
    Ok(args)
}

/// The numbers of the facts that a slice chooses, with its scores computed side by side.
fn sliced_facts<R: Threads + Sync>(
    rt: &R,
    alloc: Global,
    ground: Ground,
    slice: u32,
) -> Result<Rows<u32>, NoMemory>
    requires goal { ground.goal < length ground.theory.now.goals }
    requires visible { ground.visible.now ≡ visible_of ground.theory.now ground.goal }
    requires slice { slice < 64 }
    ensures { IfOk result (λ facts. facts ≡ sliced ground.entry.theory.now ground.entry.goal slice) }
{
    let chosen = select_par(
        rt,
        alloc,
        ground.theory,
        ground.visible,
        ground.goal,
        &slice_of(slice),
    )?;
    numbers(alloc, chosen.as_slice())
}

/// What the child of a slot is started with.
fn plan_slot<R: Threads + Sync>(
    rt: &R,
    alloc: Global,
    ground: Ground,
    prover: &Bytes,
    slice: u32,
) -> Result<Planned, NoMemory>
    requires goal { ground.goal < length ground.theory.now.goals }
    requires visible { ground.visible.now ≡ visible_of ground.theory.now ground.goal }
    requires slice { slice < 64 }
    ensures { IfOk result (IsPlanned ground.entry.theory.now ground.entry.goal prover.now slice) }
{
    let facts = sliced_facts(rt, alloc, ground, slice)?;
    let problem = problem_text(alloc, ground.theory, ground.goal, &facts)?;
    let args = child_words(alloc, prover, slice_of(slice).age)?;
    let order = Order { args, problem };
    Ok(Planned {
        order,
        chosen: facts.len() as u64,
    })
}

/// What the children of so many slots are started with.
pub(crate) fn plan_slots<R: Threads + Sync>(
    rt: &R,
    alloc: Global,
    ground: Ground,
    prover: &Bytes,
    slices: u32,
) -> Result<Plan, NoMemory>
    requires goal { ground.goal < length ground.theory.now.goals }
    requires visible { ground.visible.now ≡ visible_of ground.theory.now ground.goal }
    requires slices { slices ≤ 64 }
    ensures { IfOk result (ArePlanned ground.entry.theory.now ground.entry.goal prover.now slices) }
{
    let mut orders = Rows::begin(alloc);
    let mut chosen = Rows::begin(alloc);
    for k in 0..slices {
        let planned = plan_slot(rt, alloc, ground, prover, k)?;
        orders.push(planned.order)?;
        chosen.push(planned.chosen)?;
    }
    Ok(Plan { orders, chosen })
}
