ghost use Rattle.std.specs.Prelude.{◌≡◌, ◌≤◌, ◌<◌, ◌++◌, length, take, IfOk, OnOk, OnErr, Ok};
ghost use Rattle.jn_io.specs.Causes.{HasCause};
ghost use Rattle.jn_io.specs.Told.{Reads};
ghost use Rattle.jn_drive.specs.Reading.{ReadsFile, ReadsRest, ReadsPiece};

use crate::halt::Halt;
use jn_io::Store;
use sqlite_items::Items;
use std::alloc::Global;

/// How many bytes are asked for at once.
const PIECE: usize = 8_192;

/// The file's bytes, or the first `most` of them; then no more is read.
///
/// After a halt other files may be begun; what is left to be read of this one isn't told.
pub fn read_file<S: Store>(
    alloc: Global,
    file: &str,
    most: usize,
    store: &mut S,
) -> Result<Items<u8>, Halt>
    ensures read { ReadsFile most (S.files store.old) file.now (S.rest store.new)
        (S.read_faults store.old) (S.read_faults store.new) result }
    ensures files { S.files store.new ≡ S.files store.old }
    ensures saves { S.save_faults store.new ≡ S.save_faults store.old }
    ensures later { S.read_faults store.old ≤ S.read_faults store.new }
{
    store.begin(file)?;
    read_rest(alloc, most, store)
}

/// What is left of the file that was begun, or its first `most` bytes.
#[tactic(auto, using(crate::proofs::Reading::one_piece))]
fn read_rest<S: Store>(alloc: Global, most: usize, store: &mut S) -> Result<Items<u8>, Halt>
    ensures read { ReadsRest most (S.rest store.old) (S.rest store.new)
        (S.read_faults store.old) (S.read_faults store.new) result }
    ensures files { S.files store.new ≡ S.files store.old }
    ensures saves { S.save_faults store.new ≡ S.save_faults store.old }
    ensures later { S.read_faults store.old ≤ S.read_faults store.new }
{
    let mut source = Vec::new(alloc);
    let mut buffer = [0; PIECE];
    while source.len() < most {
        let room = (most - source.len()).min(PIECE);
        let taken = read_piece(store, &mut source, &mut buffer[..room])?;
        if taken == 0 {
            return Ok(Items::from_vec(source));
        }
    }
    Ok(Items::from_vec(source))
}

/// Reads once into the buffer, adds what was read to the source, and says how much: 0 only at the end.
fn read_piece<S: Store>(
    store: &mut S,
    source: &mut Vec<u8>,
    buffer: &mut [u8],
) -> Result<usize, Halt>
    requires { 0 < length buffer.old }
    ensures read { ReadsPiece (S.rest store.old) (S.rest store.new)
        (S.read_faults store.old) (S.read_faults store.new)
        source.old.items source.new.items (length buffer.old) result }
    ensures files { S.files store.new ≡ S.files store.old }
    ensures saves { S.save_faults store.new ≡ S.save_faults store.old }
    ensures later { S.read_faults store.old ≤ S.read_faults store.new }
{
    let taken = store.read(buffer)?;
    source.extend_from_slice(&buffer[..taken])?;
    Ok(taken)
}
