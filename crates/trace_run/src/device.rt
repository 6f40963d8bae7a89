//! The cache device of a run: its start, and how it is handed back.
ghost use Rattle.std.specs.Prelude.{◌≡◌, IfOk};
ghost use Rattle.l2_dev.specs.Rebuilding.{HaveKeys};
ghost use Rattle.trace_run.specs.Bounded.{device_len};
ghost use Rattle.trace_run.specs.Devices.{Finds, IsRightKind, cursor_in, device_of};
ghost use Rattle.trace_run.specs.Feeds.{IsOpenedAt};
ghost use Rattle.trace_run.specs.Restores.{found_keys};

use blk_ptr::NoMemory;
use l2_dev::{L2Dev, Started, Stop};
use std::alloc::Global;
use trace_text::{Rebuilt, RestoredList};
use vdev_io::CacheDev;

/// The cache device of a run.
#[derive(Drop)]
pub(crate) enum Device<D: CacheDev> {
    /// None was handed in.
    None,
    /// It is too short to be used.
    Short(D),
    /// It was started.
    Ready(L2Dev<D>),
}

/// A device, and what its start found on it.
#[derive(Drop)]
pub(crate) struct Begun<D: CacheDev> {
    pub(crate) device: Device<D>,
    /// None where no device was handed in.
    pub(crate) rebuilt: Option<Rebuilt>,
}

/// How long the device is that was handed in; 0 where there is none.
pub(crate) fn device_len<D: CacheDev>(cache: &Option<D>) -> u64
    ensures { result ≡ device_len D.size cache.now }
{
    match cache {
        Some(device) => device.len(),
        None => 0,
    }
}

/// Starts the device that was handed in. Where memory is refused it is let go.
pub(crate) fn begin<D: CacheDev>(alloc: Global, cache: Option<D>) -> Result<Begun<D>, NoMemory>
    ensures found { IfOk result (λ begun. Finds D.CacheDev cache (device_of begun.device) (cursor_in begun.device) begun.rebuilt) }
    ensures keys { IfOk result (λ begun. HaveKeys (found_keys begun.rebuilt)) }
    ensures kind { IfOk result (λ begun. IsRightKind D.CacheDev begun.device) }
    ensures opened { IfOk result (λ begun. IsOpenedAt D.CacheDev (device_len D.size cache) begun.device (found_keys begun.rebuilt)) }
{
    let Some(dev) = cache else {
        return Ok(Begun {
            device: Device::None,
            rebuilt: None,
        });
    };
    match L2Dev::start(alloc, dev) {
        Started::Ready { l2, restored, stop } => {
            Ok(Begun {
                device: Device::Ready(l2),
                rebuilt: Some(Rebuilt {
                    list: RestoredList::from_vec(restored),
                    stop,
                }),
            })
        }
        Started::Short { dev, len } => Ok(Begun {
            device: Device::Short(dev),
            rebuilt: Some(Rebuilt {
                list: RestoredList::from_vec(Vec::new(alloc)),
                stop: Stop::Short { len },
            }),
        }),
        Started::NoMemory { .. } => Err(NoMemory),
    }
}

impl<D: CacheDev> Device<D> {
    /// The device, where one was handed in.
    pub(crate) fn back(self) -> Option<D>
        ensures { result ≡ device_of self }
    {
        match self {
            Device::None => None,
            Device::Short(dev) => Some(dev),
            Device::Ready(l2) => Some(l2.stop()),
        }
    }
}
