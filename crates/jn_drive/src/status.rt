ghost use Rattle.std.specs.Prelude.{◌≡◌};
ghost use Rattle.jn_drive.specs.Status.{number_of};

/// How a call of `top` ended.
#[derive(Clone, Copy, Debug, PartialEq, Eq)]
pub enum Status {
    /// The job was done.
    Done,
    /// The source was refused, and `err` took why.
    Refused,
    /// The words are no job.
    Usage,
    /// The program used null as an object.
    Null,
    /// The program divided by zero.
    Zero,
    /// The program's objects filled the arena.
    Arena,
    /// The program's calls passed the depth.
    Depth,
    /// The program took more steps than were allowed.
    Steps,
    /// The image is no valid one.
    BadImage,
    /// The file isn't there, or couldn't be read.
    ReadFault,
    /// An output or a save failed.
    WriteFault,
    /// There was no memory.
    Memory,
}

impl Status {
    /// The number that the program ends with.
    pub fn number(self) -> u8
        ensures { result ≡ number_of self }
    {
        match self {
            Status::Done => 0,
            Status::Refused => 1,
            Status::Usage => 2,
            Status::Null => 3,
            Status::Zero => 4,
            Status::Arena => 5,
            Status::Depth => 6,
            Status::Steps => 7,
            Status::BadImage => 8,
            Status::ReadFault => 9,
            Status::WriteFault => 10,
            Status::Memory => 11,
        }
    }
}
