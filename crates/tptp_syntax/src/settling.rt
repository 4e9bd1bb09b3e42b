ghost use Rattle.std.specs.Prelude.{◌≡◌};
ghost use Rattle.tptp_syntax.specs.inner.Machine.{SettlesParts, settle_unit};

use crate::frames::{Frame, Frames};
use crate::grown::{Grown, couple, join, not, quantified};
use crate::names::Scope;
use crate::sorts::Mode;
use std::alloc::Global;
use text_kit::NoMemory;

/// Closes what takes the whole part that was read: `~`, quantifiers, and a sign on its left.
pub(crate) fn settled_unit(
    alloc: Global,
    part: Grown,
    frames: &mut Frames,
    scope: &mut Scope,
) -> Result<(Mode, Grown), NoMemory>
    ensures { SettlesParts (settle_unit part frames.old scope.old) frames.new scope.new result }
{
    let mut whole = part;
    'frames: while let Some(frame) = frames.take() {
        match frame {
            Frame::Not(_) => whole = not(alloc, whole)?,
            Frame::Bind(q) => {
                let around = scope.leave();
                whole = quantified(alloc, q, around, whole)?;
            }
            Frame::Join(sign, left) => {
                let joined = join(alloc, sign, left, whole)?;
                return Ok((Mode::Chained(sign), joined));
            }
            Frame::Couple(sign, left) => {
                let joined = couple(alloc, sign, left, whole)?;
                return Ok((Mode::Ended, joined));
            }
            other => {
                frames.open(other)?;
                return Ok((Mode::Fresh, whole));
            }
        }
    }
    Ok((Mode::Fresh, whole))
}
