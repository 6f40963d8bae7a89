//! The start of a device: what is found on it, and where it is written from there on.
ghost use Rattle.std.specs.Prelude.{◌≡◌, ℕ, ◌<◌, ◌≤◌, List, Some};
ghost use Rattle.vdev_io.specs.Faults.{Rose};
ghost use Rattle.l2_log.specs.Rules.{least_ring_end};
ghost use Rattle.l2_dev.specs.declared.stop.Stop.TheVariants as why;

use crate::device::L2Dev;
use crate::rebuild::{Rebuilt, rebuild};
use crate::stop::Stop;
use arc_core::Restored;
use blk_ptr::{NoMemory, SECTOR};
use l2_log::LEAST_RING_END;
use std::alloc::Global;
use vdev_io::CacheDev;

/// What a start answers.
#[derive(Drop)]
pub enum Started<D: CacheDev> {
    /// The device may be used. It has the restored entries, in the order in which the walk found them, and the walk ended for
    /// the reason `stop`.
    Ready {
        l2: L2Dev<D>,
        restored: Vec<Restored>,
        stop: Stop,
    },
    /// The device has `len` bytes, fewer than [`LEAST_RING_END`].
    Short {
        dev: D,
        len: u64,
    },
    /// Memory was refused.
    NoMemory {
        dev: D,
    },
}

impl<D: CacheDev> L2Dev<D> {
    ghost use Rattle.vdev_io.specs.Calls.{DeviceCall, MakesDeviceCalls};
    ghost use Rattle.l2_dev.specs.Asking.{AreReads};
    ghost use Rattle.l2_dev.specs.Reading.{OnlyRead};
    ghost use Rattle.l2_dev.specs.Restoring.{IsRebuilt};
    ghost use Rattle.l2_dev.specs.Rebuilding.{HaveKeys, IsOpened, IsStarted, ring_end_of};
    ghost use Rattle.l2_dev.specs.Walking.{IsOfRebuild};
    ghost use Rattle.l2_dev.specs.Starting.{OnReady, OnShort, OnRefused, IsShort, StartKeeps};

    /// Reads the header and walks along the chain of log blocks, each of which is read once. Nothing is written. Where the
    /// header is refused, or the device fails at it, the ring is fresh and there are no entries (`l2arc_rebuild` of OpenZFS's `arc.c`).
    pub fn start(alloc: Global, dev: D) -> Started<D>
        ensures short { OnShort result (λ d len. (d ≡ dev) × (len ≡ D.size dev) × (len < least_ring_end)) }
        ensures long { D.size dev < least_ring_end → IsShort result }
        ensures refused { OnRefused result (λ d. OnlyRead D.size D.told D.has_sectors D.may_leave D.moment D.left_since D.faults dev d × ((reads : List DeviceCall) × MakesDeviceCalls D.CacheDev reads dev d × AreReads reads)) }
        ensures read { OnReady result (λ l2 restored stop. OnlyRead D.size D.told D.has_sectors D.may_leave D.moment D.left_since D.faults dev l2.dev) }
        ensures opened { OnReady result (λ l2 restored stop. IsOpened (ring_end_of (D.size dev)) l2.cursor restored) }
        ensures keys { OnReady result (λ l2 restored stop. HaveKeys restored) }
        ensures started { OnReady result (λ l2 restored stop. (reads : List DeviceCall) × MakesDeviceCalls D.CacheDev reads dev l2.dev
            × ((image : List ℕ) → D.told dev ≡ Some image → IsStarted (ring_end_of (D.size dev)) image reads l2.cursor restored stop)) }
        ensures kind { OnReady result (λ l2 restored stop. IsOfRebuild stop) }
        ensures rebuilt { OnReady result (λ l2 restored stop. (image : List ℕ) → D.told dev ≡ Some image → IsRebuilt (ring_end_of (D.size dev)) image restored stop) }
        ensures cause { OnReady result (λ l2 restored stop. stop ≡ why.DevFault → Rose (D.faults dev) (D.faults l2.dev)) }
        ensures crash { OnReady result (λ l2 restored stop. StartKeeps D.told D.has_sectors D.may_leave (ring_end_of (D.size dev)) dev l2.dev l2.cursor restored stop) }
    {
        let len = dev.len();
        if len < LEAST_RING_END {
            return Started::Short { dev, len };
        }
        let mut dev = dev;
        match rebuild(alloc, &mut dev, len - len % SECTOR) {
            Ok(
                Rebuilt {
                    cursor,
                    restored,
                    stop,
                },
            ) => {
                let l2 = L2Dev { dev, cursor, alloc };
                Started::Ready { l2, restored, stop }
            }
            Err(NoMemory) => Started::NoMemory { dev },
        }
    }
}
