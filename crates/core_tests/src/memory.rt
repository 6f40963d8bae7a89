//! Each call that takes memory, with ample memory, at concrete types. What it does is said by its contract.
use arc_links::Links;
use arc_lists::Queues;
use key_queue::Queue;
use key_table::Table;

#[test]
fn links_are_reserved(rt: HostRuntime) {
    let mut links: Links<u64> = Links::new(rt.alloc());
    assert!(rt; links.reserve(1).is_ok());
}

#[test]
fn rows_are_reserved(rt: HostRuntime) {
    let mut table: Table<u64, u32> = Table::new(rt.alloc());
    assert!(rt; table.reserve(1).is_ok());
}

#[test]
fn sequences_are_reserved(rt: HostRuntime) {
    let mut queues = Queues::new(rt.alloc());
    assert!(rt; queues.widen(1).is_ok());
}

#[test]
fn a_value_is_queued(rt: HostRuntime) {
    let mut queue: Queue<u64> = Queue::new(rt.alloc());
    assert!(rt; queue.push(7, 70).is_ok());
}
