//! Writes of the device.
ghost use Rattle.std.specs.Prelude.{◌≡◌, ◌+◌, ◌≤◌, ◌∷◌, [], ℕ, List, length, OnOk, IfSome, Some};
ghost use Rattle.vdev_io.specs.Faults.{HasCause};
ghost use Rattle.vdev_io.specs.Calls.{Flush, MakesAsked, Write};
ghost use Rattle.vdev_io.specs.Device.{put, IsWritten};
ghost use Rattle.l2_log.specs.HeaderBytes.{SpellsHeader};
ghost use Rattle.l2_log.specs.Rules.{header_len};
ghost use Rattle.l2_dev.specs.Asking.{header_calls};
ghost use Rattle.l2_dev.specs.Steps.{Wrote, HasFlushed, HeaderWritten};

use l2_log::{DevHeader, HEADER_LEN};
use vdev_io::{CacheDev, Failed};

/// Writes the bytes. Until a flush a crash may leave each sector of the range old or new.
pub(crate) fn write_at<D: CacheDev>(dev: &mut D, offset: u64, bytes: &[u8]) -> Result<(), Failed>
    requires inside { offset + length bytes.now ≤ D.size dev.old }
    ensures wrote { Wrote D.told D.has_sectors D.may_leave D.moment D.left_since offset bytes.now dev.old dev.new }
    ensures done { OnOk result (IfSome (D.told dev.old) (λ image. D.told dev.new ≡ Some (put offset bytes.now image))) }
    ensures told { IsWritten offset bytes.now (D.told dev.old) (D.told dev.new) result }
    ensures size { D.size dev.new ≡ D.size dev.old }
    ensures cause { HasCause (D.faults dev.old) (D.faults dev.new) result }
    ensures calls { MakesAsked D.CacheDev (Write offset bytes.now ∷ []) dev.old dev.new result }
{
    dev.write(offset, bytes)
}

/// Writes the bytes and flushes. Right after Ok a crash leaves what reads give.
pub(crate) fn write_through<D: CacheDev>(
    dev: &mut D,
    offset: u64,
    bytes: &[u8],
) -> Result<(), Failed>
    requires inside { offset + length bytes.now ≤ D.size dev.old }
    ensures wrote { Wrote D.told D.has_sectors D.may_leave D.moment D.left_since offset bytes.now dev.old dev.new }
    ensures done { OnOk result (IfSome (D.told dev.old) (λ image. HasFlushed D.told D.may_leave dev.new (put offset bytes.now image))) }
    ensures told { IsWritten offset bytes.now (D.told dev.old) (D.told dev.new) result }
    ensures size { D.size dev.new ≡ D.size dev.old }
    ensures cause { HasCause (D.faults dev.old) (D.faults dev.new) result }
    ensures calls { MakesAsked D.CacheDev (Write offset bytes.now ∷ Flush ∷ []) dev.old dev.new result }
{
    write_at(dev, offset, bytes)?;
    dev.flush()
}

/// Writes the header to the first sector and flushes (`l2arc_dev_hdr_update` of OpenZFS's `arc.c`).
pub(crate) fn write_header<D: CacheDev>(dev: &mut D, header: &DevHeader) -> Result<(), Failed>
    requires inside { header_len ≤ D.size dev.old }
    ensures written { HeaderWritten D.told D.has_sectors D.may_leave D.moment D.left_since header.now dev.old dev.new result }
    ensures size { D.size dev.new ≡ D.size dev.old }
    ensures cause { HasCause (D.faults dev.old) (D.faults dev.new) result }
    ensures calls { (sector : List ℕ) × SpellsHeader sector header.now × MakesAsked D.CacheDev (header_calls sector) dev.old dev.new result }
{
    let mut sector = [0; HEADER_LEN];
    header.write(&mut sector);
    write_through(dev, 0, &sector)
}
