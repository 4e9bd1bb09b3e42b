ghost use Rattle.std.specs.Prelude.{◌≡◌, ◌<◌, Some, None, length, slice_get, ℕ, false};
ghost use Rattle.std.specs.List.{filter_map};
ghost use Rattle.race_core.specs.Standings.{is_listed};
ghost use Rattle.race_core.specs.Ran.{running_from, killed_by};
ghost use Rattle.race_core.specs.declared.event.Event.TheVariants as event;
ghost use Rattle.race_board.specs.Calls.{KillsAll};
ghost use Rattle.race_board.specs.inner.Kept.{id_in, AreKillable, killed_one};

use race_core::{Race, SlotState, Verdict};
use race_outside::Launcher;
use text_kit::Rows;

/// Kills the children of the slots that run, by ascending slot.
pub(crate) fn kill_running<L: Launcher>(
    launcher: &mut L,
    slots: &Rows<SlotState>,
    ids: &Rows<Option<u64>>,
)
    requires same { length ids.now ≡ length slots.now }
    requires killable { AreKillable slots.now ids.now (L.standing launcher.old) }
    ensures kills { KillsAll (filter_map (id_in ids.now) (running_from 0 slots.now)) (L.standing launcher.old) (L.standing launcher.new) }
    ensures same_children { L.children launcher.new ≡ L.children launcher.old }
{
    for slot in 0..slots.len() {
        let state = *slots.at(slot);
        let id = *ids.at(slot);
        kill_one(launcher, state, id);
    }
}

// Kills the child of a slot, where it runs.
fn kill_one<L: Launcher>(launcher: &mut L, state: SlotState, id: Option<u64>)
    requires started { (i : ℕ) → id ≡ Some i → i < (L.standing launcher.old).starts }
    requires unkilled { (i : ℕ) → state ≡ SlotState.Running → id ≡ Some i → is_listed i (L.standing launcher.old).kills ≡ false }
    requires unwaited { (i : ℕ) → state ≡ SlotState.Running → id ≡ Some i → is_listed i (L.standing launcher.old).waits ≡ false }
    ensures kills { KillsAll (killed_one state id) (L.standing launcher.old) (L.standing launcher.new) }
    ensures same_children { L.children launcher.new ≡ L.children launcher.old }
{
    match state {
        SlotState::Running => {
            if let Some(id) = id {
                launcher.kill(id);
            }
        }
        _ => {}
    }
}

/// Kills what a verdict kills: the slots that run, where it is the first accepted proof.
pub(crate) fn kill_at<L: Launcher>(
    launcher: &mut L,
    race: &Race,
    ids: &Rows<Option<u64>>,
    slot: u32,
    verdict: Verdict,
)
    requires same { length ids.now ≡ length race.now.slots }
    requires killable { race.now.winner ≡ None → AreKillable race.now.slots ids.now (L.standing launcher.old) }
    ensures kills { KillsAll (filter_map (id_in ids.now) (killed_by race.now (event.Settle slot verdict))) (L.standing launcher.old) (L.standing launcher.new) }
    ensures same_children { L.children launcher.new ≡ L.children launcher.old }
{
    match verdict {
        Verdict::Proved => {
            if race.winner.is_none() {
                kill_running(launcher, &race.slots, ids);
            }
        }
        _ => {}
    }
}
