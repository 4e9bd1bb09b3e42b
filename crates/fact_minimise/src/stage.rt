ghost use Rattle.std.specs.Prelude.{◌≡◌, ◌*◌, ◌^◌, ◌≤◌, ◌<◌, ◌++◌, length, take, drop, false, IfOk};
ghost use Rattle.fact_minimise.specs.Sublists.{without};
ghost use Rattle.fact_minimise.specs.Stages.{IsStageOf, blocks_at, blocks_of, block_end, is_over, place_of, shorter_of, stage_kept, stage_dropped};

use text_kit::{NoMemory, Rows};

/// What the next turn leaves out.
#[derive(Clone, Copy, Debug)]
pub enum Stage {
    /// The `next` of so many `parts` of about one size.
    Blocks { parts: usize, next: usize },
    /// One fact. So many facts were `tried` since one was dropped, in a row from the place `from` on;
    /// behind the last fact the first one follows.
    Facts { from: usize, tried: usize },
}

impl Stage {
    /// Halves, if they have two facts or more.
    pub fn first(facts: usize) -> Stage
        ensures { result ≡ blocks_of facts 2 0 }
    {
        blocks(facts, 2, 0)
    }

    /// Whether each fact was tried since one was dropped.
    pub fn is_over(self, facts: usize) -> bool
        ensures { result ≡ is_over facts self }
    {
        match self {
            Stage::Blocks { .. } => false,
            Stage::Facts { tried, .. } => tried == facts,
        }
    }

    /// The list that the next turn tries.
    pub fn shorter(self, kept: &Rows<u32>) -> Result<Rows<u32>, NoMemory>
        requires stage { IsStageOf (length kept.now) self }
        requires under_way { is_over (length kept.now) self ≡ false }
        ensures { IfOk result (λ shorter. shorter ≡ shorter_of kept.now self) }
    {
        match self {
            Stage::Blocks { parts, next } => {
                let size = kept.len() / parts;
                let start = next * size;
                if next + 1 == parts {
                    without_block(kept, start, kept.len())
                } else {
                    without_block(kept, start, start + size)
                }
            }
            Stage::Facts { from, tried } => {
                let fact = *kept.at(place(kept.len(), from, tried));
                without_fact(kept, fact)
            }
        }
    }

    /// The stage where the replay didn't find the shorter list.
    pub fn kept(self, facts: usize) -> Stage
        requires stage { IsStageOf facts self }
        requires under_way { is_over facts self ≡ false }
        ensures { result ≡ stage_kept facts self }
    {
        match self {
            Stage::Blocks { parts, next } => blocks(facts, parts, next + 1),
            Stage::Facts { from, tried } => Stage::Facts {
                from,
                tried: tried + 1,
            },
        }
    }

    /// The stage where it found the shorter list, which has `left` facts.
    pub fn dropped(self, facts: usize, left: usize) -> Stage
        requires stage { IsStageOf facts self }
        requires under_way { is_over facts self ≡ false }
        ensures { result ≡ stage_dropped facts left self }
    {
        match self {
            Stage::Blocks { parts, next } => blocks(left, parts - 1, next),
            Stage::Facts { from, tried } => Stage::Facts {
                from: place(facts, from, tried).min(left),
                tried: 0,
            },
        }
    }
}

// The next block, or behind the last one the first of twice as many, as long as each has two facts.
fn blocks(facts: usize, parts: usize, next: usize) -> Stage
    requires { 2 * parts < 2 ^ 64 }
    ensures { result ≡ blocks_of facts parts next }
{
    if next < parts {
        blocks_from(facts, parts, next)
    } else {
        blocks_from(facts, 2 * parts, 0)
    }
}

fn blocks_from(facts: usize, parts: usize, next: usize) -> Stage
    ensures { result ≡ blocks_at facts parts next }
{
    if 0 < parts && parts <= facts / 2 {
        Stage::Blocks { parts, next }
    } else {
        Stage::Facts { from: 0, tried: 0 }
    }
}

// The place of the fact that is tried next.
fn place(facts: usize, from: usize, tried: usize) -> usize
    requires from { from ≤ facts }
    requires tried { tried < facts }
    ensures value { result ≡ place_of facts from tried }
    ensures within { result < facts }
{
    let ahead = facts - tried;
    if from < ahead {
        from + tried
    } else {
        from - ahead
    }
}

fn without_block(kept: &Rows<u32>, start: usize, end: usize) -> Result<Rows<u32>, NoMemory>
    requires order { start ≤ end }
    requires within { end ≤ length kept.now }
    ensures { IfOk result (λ rest. rest ≡ take start kept.now ++ drop end kept.now) }
{
    let facts = kept.as_slice();
    let Ok(mut rest) = Vec::from_slice(kept.allocator(), &facts[..start]) else {
        return Err(NoMemory);
    };
    match rest.extend_from_slice(&facts[end..]) {
        Ok(()) => Ok(Rows::from_vec(rest)),
        Err(_) => Err(NoMemory),
    }
}

fn without_fact(kept: &Rows<u32>, fact: u32) -> Result<Rows<u32>, NoMemory>
    ensures { IfOk result (λ rest. rest ≡ without fact kept.now) }
{
    let others = kept.as_slice().iter().copied().filter(|x| *x != fact);
    match others.collect(kept.allocator()) {
        Ok(rest) => Ok(Rows::from_vec(rest)),
        Err(_) => Err(NoMemory),
    }
}
