ghost use Rattle.std.specs.Prelude.{◌≡◌};
ghost use Rattle.jn_io.specs.Causes.{HasCause};
ghost use Rattle.jn_io.specs.Told.{Takes};
ghost use Rattle.jn_drive.specs.Answer.{reply_of};
ghost use Rattle.jn_drive.specs.Reply.{memory_reply, usage_reply};
ghost use Rattle.jn_drive.specs.Seen.{IsPut, IsDelivered};

use crate::halt::{Halt, line_of, status_of};
use crate::status::Status;
use jn_io::{Failed, Sink};
use sqlite_items::Items;

/// How many bytes of an output are put at once.
const PIECE: usize = 8_192;

/// Puts the output in pieces of 8,192 bytes and a shorter last one.
fn put_output<O: Sink>(out: &mut O, output: &[u8]) -> Result<(), Failed>
    ensures taken { Takes (O.taken out.old) (O.taken out.new) output.now result }
    ensures cause { HasCause (O.faults out.old) (O.faults out.new) result }
{
    let mut from = 0;
    while from < output.len() {
        let piece = (output.len() - from).min(PIECE);
        out.put(&output[from..from + piece])?;
        from += piece;
    }
    Ok(())
}

/// Puts the bytes, and gives the status; where the output fails, `WriteFault`.
pub fn put_all<K: Sink>(sink: &mut K, bytes: &[u8], status: Status) -> Status
    ensures { IsPut status bytes.now
        (record { taken = K.taken sink.old; faults = K.faults sink.old })
        (record { taken = K.taken sink.new; faults = K.faults sink.new })
        result }
{
    match put_output(sink, bytes) {
        Ok(()) => status,
        Err(Failed) => Status::WriteFault,
    }
}

/// Puts what a job came to: its output on `out`, or on `err` the line that tells why there is none.
pub fn deliver<O: Sink, E: Sink>(
    answer: Result<Items<u8>, Halt>,
    out: &mut O,
    err: &mut E,
) -> Status
    ensures { IsDelivered (reply_of answer)
        (record { taken = O.taken out.old; faults = O.faults out.old })
        (record { taken = O.taken out.new; faults = O.faults out.new })
        (record { taken = E.taken err.old; faults = E.faults err.old })
        (record { taken = E.taken err.new; faults = E.faults err.new })
        result }
{
    match answer {
        Ok(output) => put_all(out, output.as_slice(), Status::Done),
        Err(halt) => put_all(err, line_of(&halt), status_of(&halt)),
    }
}

/// Puts the usage line on `err`.
pub fn misuse<E: Sink>(err: &mut E) -> Status
    ensures { IsPut Status.Usage usage_reply.line
        (record { taken = E.taken err.old; faults = E.faults err.old })
        (record { taken = E.taken err.new; faults = E.faults err.new })
        result }
{
    put_all(
        err,
        b"usage: jandc JOB FILE [OUT] [--arena N] [--depth N] [--steps N]\n",
        Status::Usage,
    )
}

/// Puts on `err` that there was no memory.
pub fn no_memory<E: Sink>(err: &mut E) -> Status
    ensures { IsPut Status.Memory memory_reply.line
        (record { taken = E.taken err.old; faults = E.faults err.old })
        (record { taken = E.taken err.new; faults = E.faults err.new })
        result }
{
    let halt = Halt::Memory;
    put_all(err, line_of(&halt), status_of(&halt))
}
