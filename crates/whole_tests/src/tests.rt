//! What no clause says: that the calls succeed, what real files and streams do, and that a caller that knows only the
//! traits can say what it read, and whose fault a failure was.
ghost use Rattle.std.specs.Prelude.{◌≡◌, ◌⊎◌, Some, IfOk, IfSome, IsErrOf};
ghost use Rattle.std.specs.FinMap as map;
ghost use Rattle.jn_io.specs.Causes.{Rose, HasCause};
ghost use Rattle.jn_io.specs.Told.{Lacks, Takes};

use jn_io::{DirStore, Failed, MemSink, MemStore, SaveFault, Sink, StdSink, Store};
use std::alloc::Global;
use std::fs::{self, File, OpenOptions};
use std::io::{self, Write};
use std::process::Abort;
use std::test::Fail;

#[derive(Clone, Copy, Debug, PartialEq, Eq)]
enum ReadError {
    Fault,
    Endless,
    Memory,
}

// The whole of a file, by the traits' clauses alone.
fn read_file<S: Store>(alloc: Global, store: &mut S, name: &str) -> Result<Vec<u8>, ReadError>
    ensures fault { IsErrOf result ReadError.Fault →
        Rose (S.read_faults store.old) (S.read_faults store.new) ⊎ Lacks (S.files store.old) name.now }
    ensures whole { IfOk result (λ bytes. IfSome (S.files store.old) (λ files. map.get files name.now ≡ Some bytes.items)) }
{
    if store.begin(name).is_err() {
        return Err(ReadError::Fault);
    }
    let mut bytes = Vec::new(alloc);
    for _ in 0..u64::MAX {
        let mut piece = [0; 4];
        match store.read(&mut piece) {
            Ok(0) => return Ok(bytes),
            Ok(n) => {
                if bytes.extend_from_slice(&piece[..n]).is_err() {
                    return Err(ReadError::Memory);
                }
            }
            Err(Failed) => return Err(ReadError::Fault),
        }
    }
    Err(ReadError::Endless)
}

// Puts bytes in pieces of 4, by the trait's clauses alone.
fn put_pieces<O: Sink>(out: &mut O, bytes: &[u8]) -> Result<(), Failed>
    ensures taken { Takes (O.taken out.old) (O.taken out.new) bytes.now result }
    ensures cause { HasCause (O.faults out.old) (O.faults out.new) result }
{
    let mut at = 0;
    while at < bytes.len() {
        let end = at + (bytes.len() - at).min(4);
        match out.put(&bytes[at..end]) {
            Ok(()) => at = end,
            Err(Failed) => return Err(Failed),
        }
    }
    Ok(())
}

// Takes the next bytes of a store, which are to be these.
fn expect_read<S: Store>(rt: &impl Abort, store: &mut S, want: &[u8]) {
    let mut buf = [0; 5];
    let got = store.read(&mut buf);
    assert_eq!(rt; got, Ok(want.len()));
    if let Ok(n) = got {
        assert_eq!(rt; &buf[..n], want);
    }
}

fn expect_file(rt: &impl Abort, store: &MemStore, name: &str, want: &[u8]) {
    assert!(rt;
        store.file(name).is_some_and(|bytes| bytes == want),
        "{name}"
    );
}

#[test]
fn a_memory_store_keeps_files_and_fails_where_listed(rt: HostRuntime) -> Result<(), Fail> {
    let mut store = MemStore::new(rt.alloc(), &[4, 9])?;
    store.add("a", b"old")?;
    store.add("b", b"")?;
    store.add("a", b"0123456789")?;
    expect_file(&rt, &store, "a", b"0123456789");
    expect_file(&rt, &store, "b", b"");
    assert!(rt; store.file("c").is_none());

    // What was begun stays while its file is saved again, and call 4 fails.
    assert_eq!(rt; store.begin("a"), Ok(()));
    assert_eq!(rt; store.save("a", b"new"), Ok(()));
    expect_read(&rt, &mut store, b"01234");
    let mut buf = [0; 3];
    assert_eq!(rt; store.read(&mut buf), Err(Failed));
    expect_read(&rt, &mut store, b"56789");
    expect_read(&rt, &mut store, b"");
    expect_file(&rt, &store, "a", b"new");

    // A file that isn't there leaves nothing to read, and the save that is call 9 saves nothing.
    assert_eq!(rt; store.begin("c"), Err(Failed));
    expect_read(&rt, &mut store, b"");
    assert_eq!(rt; store.save("c", b"x"), Err(SaveFault::Failed));
    assert!(rt; store.file("c").is_none());
    assert_eq!(rt; store.save("c", b"x"), Ok(()));
    expect_file(&rt, &store, "c", b"x");
    Ok(())
}

#[test]
fn a_caller_tells_each_listed_fault(rt: HostRuntime) -> Result<(), Fail> {
    // `begin`, reads of 4, 4 and 2 bytes, and one that finds the end.
    for call in 1..=6 {
        let mut store = MemStore::new(rt.alloc(), &[call])?;
        store.add("a", b"0123456789")?;
        match read_file(rt.alloc(), &mut store, "a") {
            Ok(bytes) => {
                assert_eq!(rt; call, 6);
                assert_eq!(rt; bytes.as_slice(), b"0123456789".as_slice());
            }
            Err(error) => assert_eq!(rt; error, ReadError::Fault, "at call {call}"),
        }
    }
    Ok(())
}

#[test]
fn a_memory_sink_takes_what_there_is_room_for(rt: HostRuntime) -> Result<(), Fail> {
    let mut sink = MemSink::new(rt.alloc(), 6, &[2])?;
    assert_eq!(rt; sink.put(b"abc"), Ok(()));
    assert_eq!(rt; sink.put(b"x"), Err(Failed));
    assert_eq!(rt; sink.bytes(), b"abc".as_slice());
    assert_eq!(rt; sink.put(b"d"), Ok(()));
    assert_eq!(rt; sink.put(b"efg"), Err(Failed));
    assert_eq!(rt; sink.bytes(), b"abcdef".as_slice());
    assert_eq!(rt; sink.put(b""), Ok(()));
    assert_eq!(rt; sink.put(b"h"), Err(Failed));

    let mut sink = MemSink::new(rt.alloc(), 100, &[3])?;
    assert_eq!(rt; put_pieces(&mut sink, b"0123456789"), Err(Failed));
    assert_eq!(rt; sink.bytes(), b"01234567".as_slice());
    Ok(())
}

#[test]
fn a_folder_store_reads_and_saves_real_files(rt: HostRuntime) -> Result<(), Fail> {
    let folder = std::env::temp_dir(&rt)?;
    let name = format!(in rt.alloc();
        "{}/jn_io-store-{}",
        folder.as_path().as_str(),
        std::process::id(rt.process())
    )?;
    let mut store = DirStore::new(&rt);
    assert_eq!(rt; store.begin(&name), Err(Failed));
    expect_read(&rt, &mut store, b"");
    assert_eq!(rt; store.save(&name, b"a longer one"), Ok(()));
    assert_eq!(rt; store.save(&name, b"0123456"), Ok(()));
    assert_eq!(rt; store.begin(&name), Ok(()));
    expect_read(&rt, &mut store, b"01234");
    expect_read(&rt, &mut store, b"56");
    expect_read(&rt, &mut store, b"");
    fs::remove_file(&rt, &name)?;

    // A folder is opened, and fails when it is read or saved.
    assert_eq!(rt; store.begin(folder.as_path().as_str()), Ok(()));
    let mut buf = [0; 5];
    assert_eq!(rt; store.read(&mut buf), Err(Failed));
    assert_eq!(rt;
        store.save(folder.as_path().as_str(), b"x"),
        Err(SaveFault::Failed)
    );
    assert_eq!(rt; store.save("/dev/full", b"x"), Err(SaveFault::Failed));
    Ok(())
}

// A writer that takes no byte.
#[derive(Drop)]
struct Shut;

impl Write for Shut {
    fn write(&mut self, _buf: &[u8]) -> io::Result<usize> {
        Ok(0)
    }

    fn flush(&mut self) -> io::Result<()> {
        Ok(())
    }
}

#[test]
fn a_stream_sink_hands_on_and_fails(rt: HostRuntime) -> Result<(), Fail> {
    let folder = std::env::temp_dir(&rt)?;
    let name = format!(in rt.alloc();
        "{}/jn_io-sink-{}",
        folder.as_path().as_str(),
        std::process::id(rt.process())
    )?;
    let mut sink = StdSink::new(File::create(&rt, &name)?);
    assert_eq!(rt; sink.put(b"one, "), Ok(()));
    assert_eq!(rt; sink.put(b""), Ok(()));
    assert_eq!(rt; sink.put(b"two"), Ok(()));
    let text = fs::read_to_string(&rt, &name)?;
    assert_eq!(rt; text.as_str(), "one, two");

    // A file that is open for reading alone takes nothing, and so does a full device.
    let mut closed = StdSink::new(File::open(&rt, &name)?);
    assert_eq!(rt; closed.put(b"x"), Err(Failed));
    fs::remove_file(&rt, &name)?;
    let mut full = StdSink::new(OpenOptions::new().write(true).open(&rt, "/dev/full")?);
    assert_eq!(rt; full.put(b"x"), Err(Failed));
    let mut shut = StdSink::new(Shut);
    assert_eq!(rt; shut.put(b"x"), Err(Failed));
    assert_eq!(rt; shut.put(b""), Ok(()));
    assert_eq!(rt; StdSink::new(rt.stdout()).put(b""), Ok(()));
    Ok(())
}

#[test]
fn the_law_of_the_jobs_is_there() {
    jn_drive::laws::shown_again();
}
