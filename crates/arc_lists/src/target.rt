//! How far the target moves when a ghost is asked for.
ghost use Rattle.std.specs.Prelude.{◌≡◌, ◌<◌, ◌≤◌, if◌then◌else◌};
ghost use Rattle.arc_lists.specs.Adapting.{adapted, weight};

use crate::ghost_list::Ghost;

// How much a byte of a ghost of `this` bytes weighs beside another of `other` bytes.
fn weight(this: u128, other: u128) -> u128
    requires { 0 < this }
    ensures value { result ≡ weight this other }
    ensures most { result ≤ 10 }
{
    if this >= other {
        1
    } else {
        (other / this).min(10)
    }
}

/// The target after `z` bytes of the MRU ghost were asked for, where the two ghosts have these sizes.
pub fn raised(z: u64, mru_ghost: u128, mfu_ghost: u128, p: u64, c: u64) -> u64
    requires { 0 < mru_ghost }
    ensures { result ≡ adapted Ghost.Mru z mru_ghost mfu_ghost p c }
{
    let by = u128::from(z) * weight(mru_ghost, mfu_ghost);
    u128::from(c - c / 16).min(u128::from(p) + by) as u64
}

/// The target after `z` bytes of the MFU ghost were asked for.
pub fn lowered(z: u64, mru_ghost: u128, mfu_ghost: u128, p: u64, c: u64) -> u64
    requires { 0 < mfu_ghost }
    ensures { result ≡ adapted Ghost.Mfu z mru_ghost mfu_ghost p c }
{
    let by = u128::from(z) * weight(mfu_ghost, mru_ghost);
    let by = by.min(u128::from(p)) as u64;
    (c / 16).max(p - by)
}
