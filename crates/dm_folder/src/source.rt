//! A folder as it is asked.
ghost use Rattle.std.specs.Prelude.{ℕ, List, map, IfOk, IfErr};
ghost use Rattle.dm_folder.specs.Found.{Told, told};
ghost use Rattle.dm_folder.specs.Keeps.{Keeps};
ghost use Rattle.dm_folder.specs.declared.fault.Trouble.{Trouble as Failure};

use crate::fault::Trouble;
use crate::found::Found;

/// What is asked for the names in a directory, and for the bytes of a file.
///
/// A place is the folder's path, and each name after a slash. What was answered stays answered.
pub trait Source {
    /// It answered that the directory at this place has these names, with what stands under each.
    ghost Lists: { Self → List ℕ → List Told → Type 0 };

    /// It answered that the file at this place has these bytes.
    ghost Holds: { Self → List ℕ → List ℕ → Type 0 };

    /// It answered that what stands at this place can't be read.
    ghost Fails: { Self → List ℕ → Failure → Type 0 };

    /// The names in a directory, without `.` and `..`.
    fn list(&mut self, place: &[u8]) -> Result<Vec<Found>, Trouble>
        ensures ok { IfOk result (λ found. Lists self.new place.now (map told found.items)) }
        ensures err { IfErr result (Fails self.new place.now) }
        ensures keeps { Keeps (Lists self.old) (Lists self.new) (Holds self.old) (Holds self.new) (Fails self.old) (Fails self.new) };

    /// The bytes of a file.
    fn read(&mut self, place: &[u8]) -> Result<Vec<u8>, Trouble>
        ensures ok { IfOk result (λ bytes. Holds self.new place.now bytes.items) }
        ensures err { IfErr result (Fails self.new place.now) }
        ensures keeps { Keeps (Lists self.old) (Lists self.new) (Holds self.old) (Holds self.new) (Fails self.old) (Fails self.new) };
}
