//! Where files are read and saved.
ghost use Rattle.std.specs.Prelude.{◌≡◌, ℕ, ◌<◌, List, length};
ghost use Rattle.std.specs.declared.option.Option.{Option};
ghost use Rattle.std.specs.Io.{ReadsAtMost};
ghost use Rattle.jn_io.specs.Causes.{HasCause, HasCauseUnless, HasSaveCause};
ghost use Rattle.jn_io.specs.Told.{Files, Lacks, Begins, Reads, Saves};

use crate::faults::{Failed, SaveFault};

/// Files by name, one of which is open for reading.
///
/// Its counts of read faults and of save faults never fall. `begin` and `read` leave the count of save faults alone, and
/// `save` that of read faults.
pub trait Store {
    /// What each name holds, where the store tells it.
    ghost files: { Self → Option Files };

    /// What is still to be read of the file that was begun, where the store tells it.
    ghost rest: { Self → Option (List ℕ) };

    /// How often reading failed, as a 64-bit counter has it.
    ghost read_faults: { Self → ℕ };

    /// How often saving failed, as a 64-bit counter has it.
    ghost save_faults: { Self → ℕ };

    /// Opens a file for reading, from its first byte. It fails also where the told files have no such name.
    fn begin(&mut self, name: &str) -> Result<(), Failed>
        ensures rest { Begins (files self.old) name.now (rest self.new) result }
        ensures files { files self.new ≡ files self.old }
        ensures cause { HasCauseUnless (Lacks (files self.old) name.now)
            (read_faults self.old) (read_faults self.new) result }
        ensures other_count { save_faults self.new ≡ save_faults self.old };

    /// Takes some of the rest into the front of `buf`, and says how many bytes: 0 only at the end.
    fn read(&mut self, buf: &mut [u8]) -> Result<usize, Failed>
        requires { 0 < length buf.old }
        ensures bound { ReadsAtMost result buf.new }
        ensures rest { Reads (rest self.old) (rest self.new) result buf.new }
        ensures files { files self.new ≡ files self.old }
        ensures cause { HasCause (read_faults self.old) (read_faults self.new) result }
        ensures other_count { save_faults self.new ≡ save_faults self.old };

    /// Makes a file hold exactly these bytes, whether or not it was there. What is still to be read stays.
    fn save(&mut self, name: &str, bytes: &[u8]) -> Result<(), SaveFault>
        ensures files { Saves (files self.old) (files self.new) name.now bytes.now result }
        ensures rest { rest self.new ≡ rest self.old }
        ensures cause { HasSaveCause (save_faults self.old) (save_faults self.new) result }
        ensures other_count { read_faults self.new ≡ read_faults self.old };
}
