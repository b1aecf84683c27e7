//! The devices over readers and writers of std.

use crate::devices::append_read_all;
use io_edge::{FromRead, ToWrite, write_all};
use row_edge::{RowFault, show};
use std::alloc::Global;
use std::io;
use std::io::{Error, ErrorKind, Read, Write};
use std::str::SplitWhitespace;

/// A reader whose every call fails.
#[derive(Drop)]
pub struct Broken;

impl Read for Broken {
    fn read(&mut self, _buf: &mut [u8]) -> io::Result<usize> {
        Err(Error::from(ErrorKind::Other))
    }
}

/// A writer that takes `most` bytes of a piece, and flushes only where it may.
#[derive(Drop)]
pub struct Awkward {
    pub most: usize,
    pub flushes: bool,
}

impl Write for Awkward {
    fn write(&mut self, buf: &[u8]) -> io::Result<usize> {
        Ok(self.most.min(buf.len()))
    }

    fn flush(&mut self) -> io::Result<()> {
        if self.flushes {
            Ok(())
        } else {
            Err(Error::from(ErrorKind::Other))
        }
    }
}

/// What a reader gives, read to its end, and how many reads failed.
pub fn append_from<R: Read + Drop>(
    alloc: Global,
    out: &mut String,
    reader: R,
    words: &mut SplitWhitespace<'_>,
) -> Result<(), RowFault> {
    let mut source = FromRead::new(reader);
    append_read_all(alloc, out, &mut source, words)?;
    out.push_str(" faults ")?;
    show(out, &source.faults())
}

/// Whether a text was written to a writer, and how many writes failed.
pub fn append_to<W: Write + Drop>(out: &mut String, writer: W, text: &str) -> Result<(), RowFault> {
    let mut sink = ToWrite::new(writer);
    show(out, &write_all(&mut sink, text.as_bytes()))?;
    out.push_str(" faults ")?;
    show(out, &sink.faults())
}
