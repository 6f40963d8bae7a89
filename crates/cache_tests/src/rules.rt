//! Each small rule over turns once, at two threads, with ample memory.
use std::test::Fail;
use turn_examples::histories::append_from_two_threads;
use turn_examples::refusals::{Desk, Leaves, settle, try_and_count};
use turn_examples::twins::add_from_two_threads;

#[test]
fn two_threads_keep_two_copies_the_same(rt: HostRuntime) -> Result<(), Fail> {
    let copies = add_from_two_threads(&rt, rt.alloc(), 40, 1)?;
    assert!(rt; copies.as_slice() == [42, 42].as_slice());
    Ok(())
}

#[test]
fn two_threads_append_to_one_history(rt: HostRuntime) -> Result<(), Fail> {
    let made = append_from_two_threads(&rt, rt.alloc(), &[1, 2, 3], &[10, 20])?;
    assert!(rt; made.entries.len() == 5);
    assert!(rt; made.first_places.len() == 3 && made.second_places.len() == 2);
    let mut sum = 0u64;
    for entry in &made.entries {
        sum = sum.wrapping_add(*entry);
    }
    assert!(rt; sum == 36);
    Ok(())
}

#[test]
fn a_refusal_is_counted_once(rt: HostRuntime) -> Result<(), Fail> {
    let values = vec![in rt.alloc(); 0u64, 7]?;
    let (desk, mut parties) = Desk::new(rt.alloc(), values, 2, &()).ok().ok_or("memory")?;
    let mut two = parties.pop().ok_or("two")?;
    let mut one = parties.pop().ok_or("one")?;
    let held = desk.take(&rt, &mut two, 1);
    let refused = try_and_count(&rt, &desk, &mut one);
    desk.give::<Leaves>(&mut two, 1, held);
    let count = settle(rt.alloc(), desk, one, two).ok().ok_or("memory")?;
    assert!(rt; refused && count == 1);
    Ok(())
}
