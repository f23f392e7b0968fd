//! A device that stops in the middle of what is done with it.
ghost use Rattle.std.specs.Prelude.{◌≡◌, ◌≤◌, length, IfOk, IfErr};
ghost use Rattle.dm_journal.specs.declared.device.DeviceError.TheVariants.{Memory};

use dm_journal::{Device, DeviceError};
use std::alloc::{AllocError, Global};

/// What stands in the range of a write of which only some bytes reach the disk.
#[derive(Clone, Copy)]
pub enum Tear {
    /// The first bytes, and behind them what was there.
    First,
    /// The last bytes, and before them this one, over and over.
    Last(u8),
}

/// A device on which so many steps are done, and no more: each byte of a write is one, and each other call but a read. The
/// call that is cut short answers as where memory runs out, and is the last.
#[derive(Drop)]
pub struct Tearing<D: Device> {
    pub device: D,
    pub alloc: Global,
    pub steps: usize,
    pub tear: Tear,
}

impl<D: Device> Tearing<D> {
    // Does one step.
    fn step(&mut self) -> Result<(), DeviceError>
        ensures same { self.new.device ≡ self.old.device }
        ensures err { IfErr result (λ e. e ≡ Memory) }
    {
        if self.steps == 0 {
            return Err(DeviceError::Memory);
        }
        self.steps -= 1;
        Ok(())
    }
}

// What is written where so many of the bytes reach the disk.
fn torn(alloc: Global, bytes: &[u8], count: usize, tear: Tear) -> Result<Vec<u8>, AllocError>
    requires { count ≤ length bytes.now }
    ensures { IfOk result (λ part. length part.items ≤ length bytes.now) }
{
    match tear {
        Tear::First => Ok(bytes[..count].to_vec(alloc)?),
        Tear::Last(byte) => {
            let (before, last) = bytes.split_at(bytes.len() - count);
            let mut part = vec![in alloc; byte; before.len()]?;
            part.extend_from_slice(last)?;
            Ok(part)
        }
    }
}

impl<D: Device> Device for Tearing<D> {
    ghost seen = { λ t. D.seen t.device };

    ghost may_leave = { λ t. D.may_leave t.device };

    ghost file_may_leave = { λ t. D.file_may_leave t.device };

    ghost beside = { λ t. D.beside t.device };

    ghost beside_may_leave = { λ t. D.beside_may_leave t.device };

    ghost moment = { λ t. D.moment t.device };

    ghost left_since = { λ t. D.left_since t.device };

    ghost faults = { λ t. D.faults t.device };

    ghost counts_now = { λ t. D.counts_now t.device };

    ghost leaves_some = { λ t. D.leaves_some t.device };

    ghost only_now = { λ t. D.only_now t.device };

    fn read(&mut self, alloc: Global) -> Result<Vec<u8>, DeviceError> {
        self.device.read(alloc)
    }

    fn write_at(&mut self, at: usize, bytes: &[u8]) -> Result<(), DeviceError> {
        if bytes.len() <= self.steps {
            self.steps -= bytes.len();
            return self.device.write_at(at, bytes);
        }
        let part = torn(self.alloc, bytes, self.steps, self.tear)?;
        let _done = self.device.write_at(at, &part);
        Err(DeviceError::Memory)
    }

    fn sync(&mut self) -> Result<(), DeviceError> {
        self.step()?;
        self.device.sync()
    }

    fn write_beside(&mut self, bytes: &[u8]) -> Result<(), DeviceError> {
        if bytes.len() <= self.steps {
            self.steps -= bytes.len();
            return self.device.write_beside(bytes);
        }
        let part = torn(self.alloc, bytes, self.steps, self.tear)?;
        let _done = self.device.write_beside(&part);
        Err(DeviceError::Memory)
    }

    fn sync_beside(&mut self) -> Result<(), DeviceError> {
        self.step()?;
        self.device.sync_beside()
    }

    fn rename(&mut self) -> Result<(), DeviceError> {
        self.step()?;
        self.device.rename()
    }

    fn sync_folder(&mut self) -> Result<(), DeviceError> {
        self.step()?;
        self.device.sync_folder()
    }
}
