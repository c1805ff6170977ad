// The adapters of real streams where these fail, and a shelf.
use std::collections::BTreeMap;
use std::io;
use std::io::{ErrorKind, Read, Write};
use std::test::Fail;
use topo_outside::{Failed, Shelf, Sink, SinkFault, Source, StdSink, StdSource, SureShelf};

// A reader whose every read fails.
#[derive(Drop)]
struct BrokenReader;

impl Read for BrokenReader {
    fn read(&mut self, _buf: &mut [u8]) -> io::Result<usize> {
        Err(io::Error::from(ErrorKind::Other))
    }
}

// A writer that takes nothing, or fails.
#[derive(Drop)]
struct BadWriter {
    fails: bool,
}

impl Write for BadWriter {
    fn write(&mut self, _buf: &[u8]) -> io::Result<usize> {
        if self.fails {
            return Err(io::Error::from(ErrorKind::Other));
        }
        Ok(0)
    }

    fn flush(&mut self) -> io::Result<()> {
        Ok(())
    }
}

#[test]
fn a_broken_reader_is_counted(rt: HostRuntime) {
    let mut source = StdSource::new(BrokenReader);
    let mut buf = [0; 4];
    assert_eq!(rt; source.read(&mut buf), Err(Failed));
    assert_eq!(rt; source.faults(), 1);
}

#[test]
fn a_broken_writer_is_counted(rt: HostRuntime) {
    let mut sink = StdSink::new(BadWriter { fails: true });
    assert_eq!(rt; sink.write(b"ok"), Err(SinkFault::Failed));
    assert_eq!(rt; sink.faults(), 1);
}

#[test]
fn a_writer_that_takes_nothing_is_counted(rt: HostRuntime) {
    let mut sink = StdSink::new(BadWriter { fails: false });
    assert_eq!(rt; sink.write(b"ok"), Ok(0));
    assert_eq!(rt; sink.faults(), 1);
}

#[test]
fn a_shelf_keeps_what_is_put(rt: HostRuntime) -> Result<(), Fail> {
    let alloc = rt.alloc();
    let mut shelf = SureShelf::new(BTreeMap::new(alloc));
    assert!(rt; shelf.get(alloc, "town")?.is_none());
    shelf.put(alloc, "town", b"abc")?;
    assert!(rt; shelf.get(alloc, "town")?.is_some());
    assert_eq!(rt; shelf.held().len(), 1);
    Ok(())
}
