//! References to files, sources and sinks in memory, bytes as a list, and the open gate.
use host_base::{
    Bytes, Failed, FileRef, Gate, MemorySink, MemorySource, NoGate, Source, write_all,
};
use std::alloc::{AllocError, Global};
use std::test::Fail;

#[test]
fn references_are_packed(rt: HostRuntime) {
    let root = FileRef { number: 5, seq: 5 };
    assert_eq!(rt; root.pack(), 0x0005_0000_0000_0005);
    assert_eq!(rt; FileRef::unpack(0x0005_0000_0000_0005), root);
}

#[test]
fn a_sink_fails_at_its_call(rt: HostRuntime) -> Result<(), Fail> {
    let mut sink = MemorySink::new(rt.alloc(), [2].to_vec(rt.alloc())?);
    let first = write_all(&mut sink, b"one");
    let second = write_all(&mut sink, b"two");
    assert_eq!(rt; (first, second), (Ok(()), Err(Failed)));
    assert_eq!(rt; sink.bytes(), b"one".as_slice());
    Ok(())
}

#[test]
fn a_source_fails_at_its_call(rt: HostRuntime) -> Result<(), Fail> {
    let mut source = MemorySource::new(b"abc".to_vec(rt.alloc())?, [2].to_vec(rt.alloc())?);
    let mut buf = [0; 2];
    for (call, want) in [(1, Ok(2)), (2, Err(Failed)), (3, Ok(1)), (4, Ok(0))] {
        assert_eq!(rt; source.read(&mut buf), want, "call {call}");
    }
    Ok(())
}

// Whether bytes are their copy and their clone, and the copy has this length.
fn are_copied(alloc: Global, bytes: &Bytes, len: usize) -> Result<bool, AllocError> {
    let copy = Bytes::copy_of(alloc, bytes.as_slice())?;
    let clone = bytes.clone()?;
    Ok(*bytes == copy && clone == copy && copy.len() == len && copy.is_empty() == (len == 0))
}

#[test]
fn bytes_are_those_of_the_vector(rt: HostRuntime) -> Result<(), Fail> {
    let bytes = Bytes::from(b"ab".to_vec(rt.alloc())?);
    assert!(rt; are_copied(rt.alloc(), &bytes, 2)?);
    assert!(rt; are_copied(rt.alloc(), &Bytes::new(rt.alloc()), 0)?);
    assert_eq!(rt; bytes.into_vec().as_slice(), b"ab".as_slice());
    Ok(())
}

#[test]
fn the_gate_is_open(rt: HostRuntime) {
    NoGate.pass(&rt, 1, 1);
}
