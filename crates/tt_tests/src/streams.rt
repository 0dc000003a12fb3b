//! Errors of devices of the standard library.

use std::io::{self, Error, ErrorKind, Read, Write};
use tt_stream::{ByteReader, ByteWriter, Counted, DeviceFault, ReadFault, read_to_end, write_all};

// A device of the standard library that always fails.
#[derive(Drop)]
struct Broken;

impl Read for Broken {
    fn read(&mut self, _buffer: &mut [u8]) -> io::Result<usize> {
        Err(Error::from(ErrorKind::Interrupted))
    }
}

impl Write for Broken {
    fn write(&mut self, _bytes: &[u8]) -> io::Result<usize> {
        Err(Error::from(ErrorKind::BrokenPipe))
    }

    fn flush(&mut self) -> io::Result<()> {
        Err(Error::from(ErrorKind::BrokenPipe))
    }
}

#[test]
fn errors_are_counted(rt: HostRuntime) {
    let mut broken = Counted::new(Broken);
    let fault = read_to_end(rt.alloc(), &mut broken, 12, 100).err();
    assert!(rt; fault == Some(ReadFault::Failed));
    assert!(rt; ByteReader::failures(&broken) == 1);
    assert!(rt; write_all(&mut broken, b"a") == Err(DeviceFault));
    assert!(rt; ByteWriter::flush(&mut broken) == Err(DeviceFault));
    assert!(rt; ByteWriter::failures(&broken) == 3);
}
