//! Calls that memory may be refused to, wherever that comes: each is done or refused, and what the others answer goes by which were done. With ample
//! memory all are done; by hand each allocation is refused in turn.
use crate::ends::every_call_of;
use dbuf_examples::{Answered, NEW, oid_of};
use dbuf_state::DbufFault;
use std::test::Fail;
use txg_sync::{SyncFault, Synced};

// Whether a get showed this, or was refused memory.
fn shows(got: Result<[u8; 2], DbufFault>, expected: Result<[u8; 2], DbufFault>) -> bool {
    got == expected || got == Err(DbufFault::NoMemory)
}

// Whether a call was answered so, or was refused memory.
fn answers(got: Result<(), DbufFault>, expected: Result<(), DbufFault>) -> bool {
    got == expected || got == Err(DbufFault::NoMemory)
}

// Whether the gets show what was done: the patch changed the first block, and the put made the new one.
fn show_what_was_done(answered: &Answered) -> bool {
    let [first, again, changed, new] = answered.gets;
    let [_, patched, _, written] = answered.calls;
    let low = if patched.is_ok() { [9, 0] } else { [0, 0] };
    let made = match written {
        Ok(()) => Ok([0xab, 0xab]),
        Err(_) => Err(DbufFault::NoBlock(NEW)),
    };
    shows(first, Ok([1, 1]))
        && shows(again, Ok([1, 1]))
        && shows(changed, Ok(low))
        && shows(new, made)
}

// Whether the unhold found the pin that the hold made, and no other.
fn finds_its_pin(answered: &Answered) -> bool {
    let [held, patched, unheld, written] = answered.calls;
    let pin = match held {
        Ok(()) => Ok(()),
        Err(_) => Err(DbufFault::NoPin(oid_of(0))),
    };
    answers(held, Ok(()))
        && answers(patched, Ok(()))
        && answers(unheld, pin)
        && answers(written, Ok(()))
}

// Whether the sync wrote each block that was changed, or was refused memory.
fn syncs_what_was_done(answered: &Answered) -> bool {
    let [_, patched, _, written] = answered.calls;
    let blocks = u32::from(patched.is_ok()) + u32::from(written.is_ok());
    let bytes = u64::from(blocks) * 512;
    let all = Synced {
        blocks,
        bytes,
        next: 1024 + bytes,
    };
    answered.sync == Ok(all) || answered.sync == Err(SyncFault::NoMemory)
}

#[test]
fn each_call_is_done_or_refused(rt: HostRuntime) -> Result<(), Fail> {
    let answered = every_call_of(rt.alloc(), &rt, &[]).ok_or("memory")?;
    let done = show_what_was_done(&answered);
    assert!(rt; done && finds_its_pin(&answered) && syncs_what_was_done(&answered));
    Ok(())
}
