//! A block whose bucket another party looks at.
ghost use Rattle.std.specs.Prelude.{IfSome};
ghost use Rattle.turn_table.specs.Places.{IsOther};
ghost use Rattle.arc_examples.specs.Ready.{IsReady, IsReadyAs};

use super::{big, opened};
use arc_examples::{Caller, Plain, read_one, try_one, who_has};
use arc_table::{Arcs, Look};
use blk_ptr::State;
use std::sync::Wait;

// While `two` looks at the bucket of the first block, `one` reads the third one and asks for the first: where that stands, and who
// has its bucket.
fn behind_a_look<R: Wait>(
    rt: &R,
    arcs: &Arcs<Plain>,
    one: &mut Caller,
    two: &mut Caller,
) -> (Option<State>, Option<u32>)
    requires one { IsReady arcs.now one.old.party }
    requires two { IsReady arcs.now two.old.party }
    ensures one { IsReadyAs arcs.now one.old.party one.new.party }
    ensures two { IsReadyAs arcs.now two.old.party two.new.party }
{
    let Look::Seen(look) = arcs.try_look(&mut two.party, big(0).key) else {
        return (None, None);
    };
    let _ = read_one(rt, arcs, &mut one.party, &mut one.pool, &big(2), 3);
    let state = look.header().map(|header| header.state);
    let owner = who_has(rt, arcs, &mut one.party, &big(0), 4);
    arcs.end_look(&mut two.party, look);
    (state, owner)
}

// Two blocks are read, and then a third one behind a look at the first, which has room for two: the scan passes the first, and the second
// goes. Whether the first is hit once the look has ended is told too.
fn read_behind_a_look<R: Wait>(
    rt: &R,
    arcs: &Arcs<Plain>,
    one: &mut Caller,
    two: &mut Caller,
) -> (Option<State>, Option<u32>, bool)
    requires one { IsReady arcs.now one.old.party }
    requires two { IsReady arcs.now two.old.party }
    ensures one { IsReadyAs arcs.now one.old.party one.new.party }
    ensures two { IsReadyAs arcs.now two.old.party two.new.party }
{
    let _ = read_one(rt, arcs, &mut one.party, &mut one.pool, &big(0), 1);
    let _ = read_one(rt, arcs, &mut one.party, &mut one.pool, &big(1), 2);
    let (state, owner) = behind_a_look(rt, arcs, one, two);
    let hit = try_one(rt, arcs, &mut one.party, &big(0), 4);
    (state, owner, hit)
}

#[test]
fn a_block_under_a_look_is_passed(rt: HostRuntime) {
    let Ok(mut pair) = opened(rt.alloc()) else {
        panic!(rt; "memory")
    };
    let seen = read_behind_a_look(&rt, &pair.arcs, &mut pair.one, &mut pair.two);
    assert!(rt; seen.0 == Some(State::Mru) && seen.1 == Some(1) && seen.2);
}
