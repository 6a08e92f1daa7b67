use cov_io::{Failed, Files, MemFiles, MemSink, Sink, StartFault};
use std::test::Fail;

#[test]
fn files_are_taken_in_pieces(rt: HostRuntime) -> Result<(), Fail> {
    let mut files = MemFiles::new(rt.alloc());
    files.add(b"M", b"abcde")?;
    files.add(b"N", b"")?;
    files.fail_at(3)?;
    let mut into = [0u8; 3];
    assert_eq!(rt; files.start(rt.alloc(), b"O"), Err(StartFault::Failed));
    assert_eq!(rt; files.start(rt.alloc(), b"M"), Ok(()));
    assert_eq!(rt; files.take(&mut into), Ok(3));
    assert_eq!(rt; &into, b"abc");
    assert_eq!(rt; files.take(&mut into), Err(Failed));
    assert_eq!(rt; files.take(&mut into), Ok(2));
    assert_eq!(rt; &into, b"dec");
    assert_eq!(rt; files.take(&mut into), Ok(0));
    Ok(())
}

#[test]
fn a_sink_takes_no_more_than_its_most(rt: HostRuntime) -> Result<(), Fail> {
    let mut sink = MemSink::new(rt.alloc(), 2);
    sink.fail_at(2)?;
    assert_eq!(rt; sink.put(b"abc"), Ok(2));
    assert_eq!(rt; sink.put(b"c"), Err(Failed));
    assert_eq!(rt; sink.put(b"c"), Ok(1));
    assert_eq!(rt; sink.bytes(), b"abc".as_slice());
    Ok(())
}
