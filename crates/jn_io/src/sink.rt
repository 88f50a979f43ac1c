//! Where output goes.
ghost use Rattle.std.specs.Prelude.{ℕ, List};
ghost use Rattle.std.specs.declared.option.Option.{Option};
ghost use Rattle.jn_io.specs.Causes.{HasCause};
ghost use Rattle.jn_io.specs.Told.{Takes};

use crate::faults::Failed;

/// Takes bytes in order. Its count of faults never falls.
pub trait Sink {
    /// The bytes taken so far, where the sink tells them.
    ghost taken: { Self → Option (List ℕ) };

    /// How often it failed, as a 64-bit counter has it.
    ghost faults: { Self → ℕ };

    /// Takes all the bytes. Where it failed, it took a prefix of them.
    fn put(&mut self, bytes: &[u8]) -> Result<(), Failed>
        ensures taken { Takes (taken self.old) (taken self.new) bytes.now result }
        ensures cause { HasCause (faults self.old) (faults self.new) result };
}
