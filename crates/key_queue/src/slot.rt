//! The slots of a queue, in the order in which their values came.
ghost use Rattle.std.specs.Prelude.{◌≡◌, ℕ, ◌+◌, ◌<◌, ◌^◌, length};
ghost use Rattle.key_queue.specs.Slots.{IsTrimmed, pairs, places};

use std::collections::VecDeque;

/// What came under a number. It has no value once that was taken.
#[derive(Debug, Drop)]
pub struct Slot<T> {
    pub number: u32,
    pub value: Option<T>,
}

/// Lets the slots in front go that have no value. `base` is the place of the first slot.
pub fn trim<T: Drop>(slots: &mut VecDeque<Slot<T>>, base: &mut usize)
    requires { base.old + length slots.old.items < 2 ^ 64 }
    ensures pairs { pairs slots.new.items ≡ pairs slots.old.items }
    ensures places { (n : ℕ) → places n base.new slots.new.items ≡ places n base.old slots.old.items }
    ensures fits { base.new + length slots.new.items ≡ base.old + length slots.old.items }
    ensures trimmed { IsTrimmed slots.new.items }
{
    while let Some(slot) = slots.front() {
        if slot.value.is_some() {
            return;
        }
        let _ = slots.pop_front();
        *base += 1;
    }
}
