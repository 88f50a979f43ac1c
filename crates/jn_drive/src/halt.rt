ghost use Rattle.std.specs.Prelude.{◌≡◌};
ghost use Rattle.jn_drive.specs.declared.halt.Halt.TheVariants as halts;
ghost use Rattle.jn_drive.specs.Answer.{halt_reply};

use crate::status::Status;
use jn_io::Failed;
use sqlite_items::Items;
use std::alloc::AllocError;

/// Why a job has no output.
#[derive(Debug, Drop)]
pub enum Halt {
    /// The source is refused, with this line.
    Refused(Items<u8>),
    /// The bytes spell no valid image, as this line tells.
    BadImage(Items<u8>),
    /// The file isn't there, or couldn't be read.
    Unread,
    /// Memory ran out.
    Memory,
}

impl From<Failed> for Halt {
    ghost from_gives = { λ _ h. h ≡ halts.Unread };

    fn from(_failed: Failed) -> Halt {
        Halt::Unread
    }
}

impl From<AllocError> for Halt {
    ghost from_gives = { λ _ h. h ≡ halts.Memory };

    fn from(_failed: AllocError) -> Halt {
        Halt::Memory
    }
}

/// The status that tells it.
pub fn status_of(halt: &Halt) -> Status
    ensures { result ≡ (halt_reply halt.now).status }
{
    match halt {
        Halt::Refused(_) => Status::Refused,
        Halt::BadImage(_) => Status::BadImage,
        Halt::Unread => Status::ReadFault,
        Halt::Memory => Status::Memory,
    }
}

/// The line that tells it.
pub fn line_of(halt: &Halt) -> &[u8]
    ensures { result.now ≡ (halt_reply halt.now).line }
{
    match halt {
        Halt::Refused(line) => line.as_slice(),
        Halt::BadImage(line) => line.as_slice(),
        Halt::Unread => b"fault: read\n",
        Halt::Memory => b"fault: memory\n",
    }
}
