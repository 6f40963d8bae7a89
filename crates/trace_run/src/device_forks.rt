//! The forks of the cache device that callers at work read, one for each.
ghost use Rattle.std.specs.Prelude.{◌≡◌, IfOk, vec_len};
ghost use Rattle.trace_run.specs.Devices.{WasLent, lent_in};
ghost use Rattle.trace_run.specs.callers.DeviceForks.{GivesFork, GivesForks, TakesForkBack};

use crate::device::Device;
use blk_ptr::NoMemory;
use std::alloc::Global;
use vdev_io::CacheDev;

/// A fork of the device for one caller. A refused one, also for memory, is none: that caller reads with no device.
fn one_device_fork<D: CacheDev>(alloc: Global, device: &mut Device<D>) -> Option<D>
    ensures given { GivesFork D.CacheDev result (lent_in device.old) (lent_in device.new) }
    ensures device { WasLent D.CacheDev device.old device.new }
{
    match device {
        Device::Ready(l2) => l2.device().fork(alloc).ok(),
        Device::None | Device::Short(_) => None,
    }
}

/// A fork of the device for each of so many callers.
pub(crate) fn device_forks<D: CacheDev>(
    alloc: Global,
    device: &mut Device<D>,
    callers: usize,
) -> Result<Vec<Option<D>>, NoMemory>
    ensures given { IfOk result (λ forks. GivesForks D.CacheDev forks.items (lent_in device.old) (lent_in device.new)) }
    ensures count { IfOk result (λ forks. vec_len forks ≡ callers) }
    ensures device { WasLent D.CacheDev device.old device.new }
{
    let mut forks = Vec::new(alloc);
    for _ in 0..callers {
        let fork = one_device_fork(alloc, device);
        forks.push(fork)?;
    }
    Ok(forks)
}

/// Takes a fork back, where there is one.
pub(crate) fn take_fork_back<D: CacheDev>(device: &mut Device<D>, fork: Option<D>)
    ensures back { TakesForkBack D.CacheDev fork (lent_in device.old) (lent_in device.new) }
    ensures device { WasLent D.CacheDev device.old device.new }
{
    if let Device::Ready(l2) = device {
        if let Some(fork) = fork {
            l2.device().absorb(fork);
        }
    }
}
