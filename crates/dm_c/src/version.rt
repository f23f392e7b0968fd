//! The version.
ghost use Rattle.std.specs.Prelude.{codes};
ghost use Rattle.dm_c.specs.Buffers.{Gives};

use crate::buffer::give;
use crate::status::Status;

/// As `dm --version` has it.
const VERSION: &[u8] = b"0.2.0";

/// `dm_version`: the version.
#[unsafe(no_mangle)]
pub extern "C" fn dm_version(out: &mut [u8], needed: &mut usize) -> u32
    ensures { Gives Status.Done (codes "0.2.0") out.old out.new needed.new result }
{
    give(VERSION, Status::Done, out, needed).number()
}
