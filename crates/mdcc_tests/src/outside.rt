//! Sources and sinks in memory.
use mdcc_base::{
    Failed, MemorySink, MemorySource, ReadAllFault, Sink, Source, read_all, write_all,
};
use std::test::Fail;

// Whether a read into a buffer gives this, and leaves these bytes there.
fn gives(
    source: &mut MemorySource,
    buffer: &mut [u8; 4],
    expected: Result<usize, Failed>,
    bytes: &[u8],
) -> bool {
    source.read(buffer) == expected && buffer.as_slice() == bytes
}

#[test]
fn a_memory_source_is_read_to_its_end_past_a_fault(rt: HostRuntime) -> Result<(), Fail> {
    let mut source = MemorySource::new(rt.alloc(), b"abcde".as_slice(), &[2])?;
    let mut buffer = [45u8; 4];
    assert!(rt; source.read(&mut buffer[..3]) == Ok(3));
    assert!(rt; buffer.as_slice() == b"abc-".as_slice());
    assert!(rt; gives(&mut source, &mut buffer, Err(Failed), b"abc-".as_slice()));
    assert!(rt; gives(&mut source, &mut buffer, Ok(2), b"dec-".as_slice()));
    assert!(rt; gives(&mut source, &mut buffer, Ok(0), b"dec-".as_slice()));
    Ok(())
}

#[test]
fn read_all_gives_the_bytes_or_the_fault(rt: HostRuntime) -> Result<(), Fail> {
    let mut sound = MemorySource::new(rt.alloc(), &[7; 5000], &[4])?;
    let bytes = read_all(rt.alloc(), &mut sound)?;
    assert!(rt; bytes.as_slice() == [7; 5000].as_slice());
    let mut broken = MemorySource::new(rt.alloc(), &[7; 5000], &[3])?;
    assert!(rt; read_all(rt.alloc(), &mut broken).err() == Some(ReadAllFault::Failed));
    Ok(())
}

#[test]
fn a_memory_sink_takes_what_was_reserved(rt: HostRuntime) -> Result<(), Fail> {
    let mut sink = MemorySink::new(rt.alloc(), &[])?;
    sink.reserve(5)?;
    assert!(rt; sink.write(b"ab".as_slice()) == Ok(2));
    assert!(rt; sink.write(b"cde".as_slice()) == Ok(3));
    assert!(rt; sink.bytes() == b"abcde".as_slice());
    Ok(())
}

#[test]
fn a_memory_sink_fails_by_its_script(rt: HostRuntime) -> Result<(), Fail> {
    let mut sink = MemorySink::new(rt.alloc(), &[2, 4])?;
    sink.reserve(16)?;
    assert!(rt; write_all(&mut sink, b"ab".as_slice()) == Ok(()));
    assert!(rt; write_all(&mut sink, b"cd".as_slice()) == Err(Failed));
    assert!(rt; sink.bytes() == b"ab".as_slice());
    assert!(rt; write_all(&mut sink, b"ef".as_slice()) == Ok(()));
    assert!(rt; write_all(&mut sink, b"gh".as_slice()) == Err(Failed));
    assert!(rt; sink.bytes() == b"abef".as_slice());
    Ok(())
}
