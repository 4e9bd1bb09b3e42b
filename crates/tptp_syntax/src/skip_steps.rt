ghost use Rattle.std.specs.Prelude.{◌≡◌};
ghost use Rattle.tptp_syntax.specs.Grammar.{may_end as may_end_at, in_part as in_part_at, gone_on as gone_on_from, may_divide as may_divide_at, is_filler as is_filler_at};
ghost use Rattle.tptp_syntax.specs.inner.Machine.{Takes, group_end as group_end_of, close_group as closed_group, skip_comma as skip_comma_at, skip_on as skip_on_at};

use crate::Tok;
use crate::frames::Frame;
use crate::reader::{Reader, Spot, Stop};
use crate::sorts::Skip;

fn may_end(at: Skip) -> bool
    ensures { result ≡ may_end_at at }
{
    !matches!(at, Skip::Begun)
}

fn in_part(at: Skip) -> bool
    ensures { result ≡ in_part_at at }
{
    !matches!(at, Skip::Behind)
}

/// The place behind a token or a group of a part.
fn gone_on(at: Skip) -> Skip
    ensures { result ≡ gone_on_from at }
{
    match at {
        Skip::Begun => Skip::Within,
        Skip::Behind => Skip::Behind,
        Skip::Within => Skip::Within,
        Skip::Group => Skip::Group,
    }
}

fn may_divide(at: Skip) -> bool
    ensures { result ≡ may_divide_at at }
{
    match at {
        Skip::Behind => true,
        Skip::Within => true,
        Skip::Begun => false,
        Skip::Group => false,
    }
}

/// Whether this token may stand in a part: no bracket, and a comma only in brackets.
fn is_filler(at: Skip, tok: Tok) -> bool
    ensures { result ≡ is_filler_at at tok }
{
    match tok {
        Tok::Open(_) => false,
        Tok::Close(_) => false,
        Tok::Bad => false,
        Tok::Comma => matches!(at, Skip::Group),
        _ => in_part(at),
    }
}

/// The place behind a group, where this bracket closes it.
fn group_end(square: bool, frame: Frame) -> Option<Skip>
    ensures { result ≡ group_end_of square frame }
{
    match frame {
        Frame::Group(opened, next) => { if opened == square { Some(next) } else { None } }
        _ => None,
    }
}

impl Reader {
    /// A bracket closes in a further part: a group's, or the statement's.
    fn close_group(&mut self, at: Skip, square: bool) -> Result<Spot, Stop>
        ensures { Takes (closed_group self.old at square self.old.frames) self.new result }
    {
        match self.frames.take() {
            None => {
                if !square && may_end(at) {
                    Ok(Spot::Dot)
                } else {
                    Err(Stop::Syntax)
                }
            }
            Some(frame) => match group_end(square, frame) {
                Some(next) => Ok(Spot::Skip(next)),
                None => Err(Stop::Syntax),
            },
        }
    }

    fn skip_comma(&mut self, at: Skip) -> Result<Spot, Stop>
        ensures { Takes (skip_comma_at self.old at) self.new result }
    {
        if is_filler(at, Tok::Comma) {
            Ok(Spot::Skip(gone_on(at)))
        } else if may_divide(at) {
            Ok(Spot::Skip(Skip::Begun))
        } else {
            Err(Stop::Syntax)
        }
    }

    /// In a statement's further parts.
    pub(crate) fn skip(&mut self, at: Skip, tok: Tok) -> Result<Spot, Stop>
        ensures { Takes (skip_on_at self.old at tok) self.new result }
    {
        match tok {
            Tok::Open(square) => {
                if in_part(at) {
                    self.frames.open(Frame::Group(square, gone_on(at)))?;
                    Ok(Spot::Skip(Skip::Group))
                } else {
                    Err(Stop::Syntax)
                }
            }
            Tok::Close(square) => self.close_group(at, square),
            Tok::Comma => self.skip_comma(at),
            _ => {
                if is_filler(at, tok) {
                    Ok(Spot::Skip(gone_on(at)))
                } else {
                    Err(Stop::Syntax)
                }
            }
        }
    }
}
