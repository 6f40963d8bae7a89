//! Steps of one or two calls. After each the party is ready for the next, and what it got is given back.
ghost use Rattle.std.specs.Prelude.{◌≡◌, IfErr, IfOk, IfSome, IsTrue, OnErr};
ghost use Rattle.turn_table.specs.Places.{IsOther};
ghost use Rattle.arc_table.specs.Booking.{without_hold};
ghost use Rattle.arc_table.specs.Holding.{IsHeld};
ghost use Rattle.arc_examples.specs.Ready.{Gets, HasGivenBack, HasGot, IsAsBefore, IsReady, IsReadyAs};

use crate::plain::Plain;
use arc_table::{Arcs, Hold, Look, Party, Read, TryDrop, TryHit};
use blk_ptr::Ptr;
use std::sync::Wait;
use std::thread;
use vdev_io::{MemPool, NoCache};

// Gives a hold back.
fn give_back<R: Wait>(rt: &R, arcs: &Arcs<Plain>, party: &mut Party<Plain>, hold: Hold)
    requires ready { IsReady arcs.now party.old }
    requires hold { IsHeld arcs.now.config party.old hold }
    ensures ready { IsReadyAs arcs.now party.old party.new }
    ensures holds { party.new.own.ledger.holds ≡ without_hold hold.key party.old.own.ledger.holds }
    ensures back { HasGivenBack arcs.now hold.key party.new }
{
    arcs.drop_hold(rt, party, hold);
}

// Gives a hold back, without waiting where that can be.
fn try_back<R: Wait>(rt: &R, arcs: &Arcs<Plain>, party: &mut Party<Plain>, hold: Hold)
    requires ready { IsReady arcs.now party.old }
    requires hold { IsHeld arcs.now.config party.old hold }
    ensures ready { IsReadyAs arcs.now party.old party.new }
    ensures holds { party.new.own.ledger.holds ≡ without_hold hold.key party.old.own.ledger.holds }
    ensures back { HasGivenBack arcs.now hold.key party.new }
{
    match arcs.try_drop(party, hold) {
        TryDrop::Done => {}
        TryDrop::Busy { owner: _, hold } => give_back(rt, arcs, party, hold),
    }
}

// Reads a block.
fn get<R: Wait>(
    rt: &R,
    arcs: &Arcs<Plain>,
    party: &mut Party<Plain>,
    pool: &mut MemPool,
    ptr: &Ptr,
    tick: u64,
) -> Option<Hold>
    requires { IsReady arcs.now party.old }
    ensures { Gets arcs.now ptr.now.key party.old party.new result }
{
    match arcs.read(rt, party, ptr, tick, pool, &mut NoCache::new()) {
        Ok(Read::Held(hold, _)) => Some(hold),
        Ok(Read::Past { block: _, kept: _ }) => None,
        Err(_) => None,
    }
}

// Asks for a block. Err has the number of the party that has the block's bucket or its shard, where another has one of them.
fn try_get(
    arcs: &Arcs<Plain>,
    party: &mut Party<Plain>,
    ptr: &Ptr,
    tick: u64,
) -> Result<Hold, Option<u32>>
    requires { IsReady arcs.now party.old }
    ensures held { IfOk result (λ hold. HasGot arcs.now ptr.now.key hold party.old party.new) }
    ensures none { OnErr result (IsAsBefore arcs.now party.old party.new) }
    ensures other { IfErr result (λ owner. IfSome owner (λ n. IsOther n party.old)) }
{
    match arcs.try_hit(party, ptr, tick) {
        TryHit::Held(hold) => Ok(hold),
        TryHit::NotHere(_) => Err(None),
        TryHit::Other { kept: _, front: _ } => Err(None),
        TryHit::Reading { owner: _, front: _ } => Err(None),
        TryHit::Busy { owner } => Err(Some(owner)),
        TryHit::NoMemory => Err(None),
    }
}

/// Reads a block and gives it back. False where the read is refused.
pub fn read_one<R: Wait>(
    rt: &R,
    arcs: &Arcs<Plain>,
    party: &mut Party<Plain>,
    pool: &mut MemPool,
    ptr: &Ptr,
    tick: u64,
) -> bool
    requires { IsReady arcs.now party.old }
    ensures party { IsAsBefore arcs.now party.old party.new }
    ensures back { IsTrue result → HasGivenBack arcs.now ptr.now.key party.new }
{
    let Some(hold) = get(rt, arcs, party, pool, ptr, tick) else {
        return false;
    };
    give_back(rt, arcs, party, hold);
    true
}

/// Reads a block and gives it back, without waiting where that can be. False where the read is refused.
pub fn read_and_try<R: Wait>(
    rt: &R,
    arcs: &Arcs<Plain>,
    party: &mut Party<Plain>,
    pool: &mut MemPool,
    ptr: &Ptr,
    tick: u64,
) -> bool
    requires { IsReady arcs.now party.old }
    ensures party { IsAsBefore arcs.now party.old party.new }
    ensures back { IsTrue result → HasGivenBack arcs.now ptr.now.key party.new }
{
    let Some(hold) = get(rt, arcs, party, pool, ptr, tick) else {
        return false;
    };
    try_back(rt, arcs, party, hold);
    true
}

/// Asks for a block, and gives it back where it is there. False where it is not, or another party has its bucket or its shard.
pub fn try_one<R: Wait>(
    rt: &R,
    arcs: &Arcs<Plain>,
    party: &mut Party<Plain>,
    ptr: &Ptr,
    tick: u64,
) -> bool
    requires { IsReady arcs.now party.old }
    ensures party { IsAsBefore arcs.now party.old party.new }
    ensures back { IsTrue result → HasGivenBack arcs.now ptr.now.key party.new }
{
    let Ok(hold) = try_get(arcs, party, ptr, tick) else {
        return false;
    };
    give_back(rt, arcs, party, hold);
    true
}

/// The number of the party that has the bucket or the shard of a block, where another has one of them.
pub fn who_has<R: Wait>(
    rt: &R,
    arcs: &Arcs<Plain>,
    party: &mut Party<Plain>,
    ptr: &Ptr,
    tick: u64,
) -> Option<u32>
    requires { IsReady arcs.now party.old }
    ensures party { IsAsBefore arcs.now party.old party.new }
    ensures other { IfSome result (λ owner. IsOther owner party.old) }
{
    match try_get(arcs, party, ptr, tick) {
        Ok(hold) => {
            give_back(rt, arcs, party, hold);
            None
        }
        Err(owner) => owner,
    }
}

/// Looks at the bucket of a block for a while. False where another party has it.
pub fn look_at(arcs: &Arcs<Plain>, party: &mut Party<Plain>, ptr: &Ptr) -> bool
    requires { IsReady arcs.now party.old }
    ensures { IsAsBefore arcs.now party.old party.new }
{
    let Look::Seen(look) = arcs.try_look(party, ptr.key) else {
        return false;
    };
    thread::yield_now();
    arcs.end_look(party, look);
    true
}
