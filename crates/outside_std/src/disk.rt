ghost use Rattle.std.specs.Prelude.{◌≡◌, ◌≤◌, ℕ, List, [], ◌∷◌, Option, OnOk, OnErr, IfOk, length, take};
ghost use Rattle.outside.specs.Contents.{Contents};
ghost use Rattle.outside_std.specs.Loading.{Opens};
ghost use Rattle.outside_std.specs.Saving.{Adds};
ghost use Rattle.outside_std.specs.declared.step.Step.{Step};

use crate::cause::FileCause;
use crate::step::Step;
use std::io::Read;

/// A disk, as far as loads and saves need one.
pub trait Disk {
    /// A file that is open for reading.
    type Opened: Read + Drop;

    /// A file that is open for writing.
    type File: Drop;

    /// The content under each name, or None if that is not known, as for a real one.
    ghost held: { Self → Option Contents };

    /// The steps that it took so far, or None if they are not known, as for a real one.
    ghost steps: { Self → Option (List Step) };

    /// Opens what is under a name, starting at its first byte.
    fn open(&self, name: &str) -> Result<Self::Opened, FileCause>
        ensures { IfOk result (λ file. Opens (held self.now) name.now (Self.Opened.remaining file)) };

    /// Creates a file under a name that nothing has, with these permission bits, or those of any new file.
    fn create(&mut self, name: &str, mode: Option<u32>) -> Result<Self::File, FileCause>
        ensures ok { OnOk result (Adds (steps self.old) (steps self.new) (Step.Creates name.now ∷ [])) }
        ensures err { OnErr result (Adds (steps self.old) (steps self.new) []) };

    /// Gives the file these permission bits, even those that the process leaves out of new files.
    fn allow(&mut self, file: &mut Self::File, mode: u32) -> Result<(), FileCause>
        ensures same { Adds (steps self.old) (steps self.new) [] };

    /// Writes bytes from the front of a text, and says how many.
    fn write(&mut self, file: &mut Self::File, text: &[u8]) -> Result<usize, FileCause>
        ensures bound { IfOk result (λ n. n ≤ length text.now) }
        ensures ok { IfOk result (λ n. Adds (steps self.old) (steps self.new) (Step.Writes (take n text.now) ∷ [])) }
        ensures err { OnErr result (Adds (steps self.old) (steps self.new) []) };

    /// Waits until what the file holds is on the disk.
    fn sync(&mut self, file: &mut Self::File) -> Result<(), FileCause>
        ensures ok { OnOk result (Adds (steps self.old) (steps self.new) (Step.Syncs ∷ [])) }
        ensures err { OnErr result (Adds (steps self.old) (steps self.new) []) };

    /// Gives what has one name another, replacing what has that.
    fn rename(&mut self, from: &str, to: &str) -> Result<(), FileCause>
        ensures ok { OnOk result (Adds (steps self.old) (steps self.new) (Step.Renames from.now to.now ∷ [])) }
        ensures err { OnErr result (Adds (steps self.old) (steps self.new) []) };

    /// Removes a file, if it can.
    fn remove(&mut self, name: &str)
        ensures { Adds (steps self.old) (steps self.new) (Step.Removes name.now ∷ []) };

    /// Waits until the names in the folder of this one are on the disk.
    fn sync_folder(&mut self, name: &str) -> Result<(), FileCause>
        ensures ok { OnOk result (Adds (steps self.old) (steps self.new) (Step.SyncsFolder name.now ∷ [])) }
        ensures err { OnErr result (Adds (steps self.old) (steps self.new) []) };
}
