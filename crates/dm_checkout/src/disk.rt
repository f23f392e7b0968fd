//! The disk as a checkout sees it.
ghost use Rattle.std.specs.Prelude.{◌≡◌, ◌⊎◌, [], ◌∷◌, ◌++◌, List, OnOk, OnErr};
ghost use Rattle.dm_checkout.specs.Made.{Made, Taken, MadeDir, MadeFile, MadePart};

use crate::fault::FolderFault;
use std::io;

/// Where a checkout makes folders and files.
pub trait Disk {
    /// What was made, oldest first.
    ghost made: { Self → List Made };

    /// Makes the folder of the checkout, or sees that it is there and empty.
    fn take(&mut self, folder: &str) -> Result<(), FolderFault>
        ensures ok { OnOk result (made self.new ≡ made self.old ++ Taken folder.now ∷ []) }
        ensures err { OnErr result (made self.new ≡ made self.old) };

    /// Makes a folder.
    fn make_dir(&mut self, place: &str) -> io::Result<()>
        ensures ok { OnOk result (made self.new ≡ made self.old ++ MadeDir place.now ∷ []) }
        ensures err { OnErr result (made self.new ≡ made self.old) };

    /// Makes a file of these bytes where nothing stands. It writes over no file, and follows no link in its place. After an error a part
    /// of the file may be there.
    fn make_file(&mut self, place: &str, bytes: &[u8]) -> io::Result<()>
        ensures ok { OnOk result (made self.new ≡ made self.old ++ MadeFile place.now bytes.now ∷ []) }
        ensures err { OnErr result ((made self.new ≡ made self.old) ⊎ (made self.new ≡ made self.old ++ MadePart place.now ∷ [])) };
}
