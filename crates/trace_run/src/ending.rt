//! How a run gives back what its callers still keep: caller by caller, each while all other parties have joined it, so that the histories end
//! with these drops.
ghost use Rattle.std.specs.Prelude.{◌≡◌, ℕ, [], IfOk, List, map, vec_len};
ghost use Rattle.std.specs.List.{AllByRecursion};
ghost use Rattle.arc_table.specs.Geometry.{parties_of};
ghost use Rattle.arc_core.specs.declared.event.Event.{Event};
ghost use Rattle.arc_core.specs.Operations.{Act};
ghost use Rattle.trace_run.specs.Deeds.{Noted};
ghost use Rattle.trace_run.specs.Meeting.{AreLast, AreWaiting, FirstGaveBack, FirstMayGoOn, GaveBackJoined, HaveGivenBack, IsFed, JoinAll, MayGoOn, MayJoin, MayPart, PartAll};

use crate::kept_blocks::{KeptBlocks, give_back_all};
use arc_core::Keeps;
use arc_table::{Arcs, Party};
use blk_ptr::NoMemory;
use std::alloc::Global;
use std::sync::Wait;

/// The numbers of parties, in their order.
pub(crate) fn numbers_of<C: Keeps>(
    alloc: Global,
    parties: &[Party<C>],
) -> Result<Vec<u32>, NoMemory>
    ensures { IfOk result (λ numbers. numbers.items ≡ map (λ p. p.number) parties.now) }
{
    let mut numbers = Vec::new(alloc);
    for party in parties {
        numbers.push(party.number())?;
    }
    Ok(numbers)
}

/// All these parties join `party`, the first of them last.
pub(crate) fn join_all<C: Keeps>(arcs: &Arcs<C>, party: &mut Party<C>, mut others: Vec<Party<C>>)
    requires party { MayJoin arcs.now party.old }
    requires others { AllByRecursion (MayJoin arcs.now) others.items }
    ensures { JoinAll C.Keeps others.items party.old party.new }
{
    while let Some(other) = others.pop() {
        arcs.join(party, other);
    }
}

/// The parties of these numbers, which joined `party`, part from it.
pub(crate) fn part_all<C: Keeps>(
    alloc: Global,
    arcs: &Arcs<C>,
    party: &mut Party<C>,
    numbers: Vec<u32>,
) -> Result<Vec<Party<C>>, NoMemory>
    requires party { MayPart arcs.now party.old }
    requires numbers { AreLast numbers.items party.old.joined }
    ensures { IfOk result (λ parties. PartAll numbers.items party.old parties.items party.new) }
{
    let mut parties = Vec::new(alloc);
    for number in numbers {
        parties.push(arcs.part(party, number))?;
    }
    Ok(parties)
}

/// The party gives back what it keeps, while all others have joined it. Then they part from it: the others, in their order, and then the party.
fn give_back_joined<C: Keeps>(
    alloc: Global,
    rt: &impl Wait,
    arcs: &Arcs<C>,
    mut party: Party<C>,
    kept: KeptBlocks,
    others: Vec<Party<C>>,
) -> Result<Vec<Party<C>>, NoMemory>
    requires { MayGoOn arcs.now kept party others.items }
    ensures { IfOk result (λ parties. GaveBackJoined arcs.now party kept others.items parties.items) }
{
    let numbers = numbers_of(alloc, &others)?;
    join_all(arcs, &mut party, others);
    give_back_all(rt, arcs, &mut party, kept);
    let mut parties = part_all(alloc, arcs, &mut party, numbers)?;
    parties.push(party)?;
    Ok(parties)
}

/// The first party gives back these reads, which it keeps, while all others have joined it. Then it is the last.
fn first_gives_back<C: Keeps>(
    alloc: Global,
    rt: &impl Wait,
    arcs: &Arcs<C>,
    mut parties: Vec<Party<C>>,
    kept: KeptBlocks,
) -> Result<Vec<Party<C>>, NoMemory>
    requires { FirstMayGoOn arcs.now kept parties.items }
    ensures { IfOk result (λ left. FirstGaveBack arcs.now kept parties.items left.items) }
{
    let party = parties.remove(0);
    give_back_joined(alloc, rt, arcs, party, kept, parties)
}

/// The callers give back what they still keep, by rising caller. These are their parties, by their numbers, and the feeder's, which is the last
/// one then.
pub(crate) fn all_give_back<C: Keeps>(
    alloc: Global,
    rt: &impl Wait,
    arcs: &Arcs<C>,
    callers: Vec<Party<C>>,
    kept: Vec<KeptBlocks>,
    feeder: Party<C>,
) -> Result<Vec<Party<C>>, NoMemory>
    requires parties { arcs.now.row.parties ≡ parties_of arcs.now.config }
    requires count { vec_len kept ≡ arcs.now.config.callers }
    requires callers { (acts : ℕ → List Act) × (noted : ℕ → List Noted) × AreWaiting arcs.now acts noted 0 kept.items callers.items }
    requires feeder { (openings : List (List ℕ)) × (feeds since : (shard : ℕ) → List Event) × (inserted : List Act) × (synced : List Noted) × IsFed arcs.now openings feeds since inserted synced feeder }
    ensures { IfOk result (λ parties. (acts : ℕ → List Act) (noted : ℕ → List Noted) → AreWaiting arcs.now acts noted 0 kept.items callers.items
        → (openings : List (List ℕ)) (feeds since : (shard : ℕ) → List Event) (inserted : List Act) (synced : List Noted) → IsFed arcs.now openings feeds since inserted synced feeder
        → HaveGivenBack arcs.now acts noted openings feeds since inserted synced callers.items feeder kept.items parties.items) }
{
    let mut parties = give_back_joined(alloc, rt, arcs, feeder, KeptBlocks::new(alloc), callers)?;
    for reads in kept {
        parties = first_gives_back(alloc, rt, arcs, parties, reads)?;
    }
    let feeder = parties.remove(0);
    parties.push(feeder)?;
    Ok(parties)
}
