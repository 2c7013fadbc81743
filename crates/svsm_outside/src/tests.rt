ghost use Rattle.std.specs.Prelude.{Some};

use super::*;
use std::test::Fail;
use std::{env, fs, process};
use svsm_types::Faulted;

#[test]
fn a_shelf_in_memory_loads_what_was_put(rt: HostRuntime) -> Result<(), Fail> {
    let alloc = rt.alloc();
    let mut shelf = MemoryShelf::new(alloc, &[2])?;
    shelf.put_file("image", b"old")?;
    shelf.put_file("image", b"new")?;
    shelf.put_file("script", b"")?;
    assert_eq!(rt;
        shelf.load(alloc, "image", 3)?.as_slice(),
        b"new".as_slice()
    );
    assert!(rt; matches!(shelf.load(alloc, "image", 2), Err(LoadError::TooLong)));
    assert!(rt; matches!(shelf.load(alloc, "image", 3), Err(LoadError::Failed)));
    assert!(rt; matches!(shelf.load(alloc, "other", 3), Err(LoadError::Failed)));
    assert!(rt; shelf.load(alloc, "script", 0)?.is_empty());
    Ok(())
}

#[test]
fn a_sink_in_memory_fails_at_its_number_and_when_full(rt: HostRuntime) -> Result<(), Fail> {
    let mut sink = MemorySink::new(rt.alloc(), 4, &[1])?;
    assert_eq!(rt; sink.write(b"ab"), Ok(2));
    assert_eq!(rt; sink.write(b"cd"), Err(Faulted));
    assert_eq!(rt; sink.write(b"cde"), Ok(2));
    assert_eq!(rt; sink.write(b"e"), Err(Faulted));
    assert_eq!(rt; sink.bytes(), b"abcd".as_slice());
    Ok(())
}

#[test]
fn a_text_is_cut_off_where_the_sink_is_full(rt: HostRuntime) -> Result<(), Fail> {
    let mut sink = MemorySink::new(rt.alloc(), 4, &[])?;
    assert_eq!(rt; append_all(&mut sink, b"ab"), Ok(()));
    assert_eq!(rt; append_all(&mut sink, b"cde"), Err(Faulted));
    assert_eq!(rt; sink.bytes(), b"abcd".as_slice());
    Ok(())
}

// A sink that takes at most two bytes a write.
#[derive(Drop)]
struct Slow {
    sink: MemorySink,
}

impl Sink for Slow {
    ghost seen = { λ s. record { written = Some s.sink.written.items; faults = s.sink.faults } };

    fn write(&mut self, bytes: &[u8]) -> Result<usize, Faulted> {
        let count = bytes.len().min(2);
        self.sink.write(&bytes[..count])
    }
}

#[test]
fn a_write_that_fails_in_the_middle_leaves_a_front(rt: HostRuntime) -> Result<(), Fail> {
    let sink = MemorySink::new(rt.alloc(), 4096, &[2])?;
    let mut slow = Slow { sink };
    assert_eq!(rt; append_all(&mut slow, b"abcdefg"), Err(Faulted));
    assert_eq!(rt; slow.sink.bytes(), b"abcd".as_slice());
    Ok(())
}

#[test]
fn a_stream_takes_what_its_writer_takes(rt: HostRuntime) -> Result<(), Fail> {
    let mut room = [0u8; 3];
    let mut sink = StreamSink::new(room.as_mut_slice());
    assert_eq!(rt; sink.write(b"ab"), Ok(2));
    assert_eq!(rt; sink.write(b"cd"), Ok(1));
    assert_eq!(rt; sink.write(b"d"), Err(Faulted));
    drop(sink);
    assert_eq!(rt; room, *b"abc");
    Ok(())
}

// A name for a file that no other test has.
fn path_of(rt: &HostRuntime, word: &str) -> Result<String, Fail> {
    let folder = env::temp_dir(rt)?;
    let id = process::id(rt.process());
    Ok(format!(in rt.alloc(); "{}/svsm_{word}_{id}", folder.as_str())?)
}

#[test]
fn a_file_of_several_buffers_is_loaded_up_to_its_limit(rt: HostRuntime) -> Result<(), Fail> {
    let alloc = rt.alloc();
    let name = path_of(&rt, "long")?;
    let mut bytes = Vec::new(alloc);
    for number in 0..10_000u64 {
        bytes.push((number % 251) as u8)?;
    }
    fs::write(&rt, name.as_str(), bytes.as_slice())?;
    let mut shelf = FileShelf::new(&rt, alloc);
    let whole = shelf.load(alloc, name.as_str(), 10_000)?;
    assert!(rt; whole.as_slice() == bytes.as_slice());
    let long = shelf.load(alloc, name.as_str(), 9_999);
    assert!(rt; matches!(long, Err(LoadError::TooLong)));
    fs::remove_file(&rt, name.as_str())?;
    let gone = shelf.load(alloc, name.as_str(), 10_000);
    assert!(rt; matches!(gone, Err(LoadError::Failed)));
    Ok(())
}

#[test]
fn the_load_of_a_folder_fails(rt: HostRuntime) -> Result<(), Fail> {
    let folder = env::temp_dir(&rt)?;
    let mut shelf = FileShelf::new(&rt, rt.alloc());
    let loaded = shelf.load(rt.alloc(), folder.as_str(), 10_000);
    assert!(rt; matches!(loaded, Err(LoadError::Failed)));
    Ok(())
}
