//! A file whose failure is noted, since a session only says that a read failed.

use std::io;
use std::io::Read;

/// A reader with the error of its last read that failed.
#[derive(Drop)]
pub struct NotedReader<R> {
    reader: R,
    pub error: Option<io::Error>,
}

impl<R: Read> NotedReader<R> {
    /// Makes a reader whose reads haven't failed.
    pub fn new(reader: R) -> NotedReader<R> {
        NotedReader {
            reader,
            error: None,
        }
    }
}

impl<R: Read> Read for NotedReader<R> {
    /// Reads some bytes. An error's kind is noted; the caller gets it, too.
    fn read(&mut self, buffer: &mut [u8]) -> io::Result<usize> {
        match self.reader.read(buffer) {
            Ok(count) => Ok(count),
            Err(error) => {
                let kind = error.kind();
                self.error = Some(error);
                Err(io::Error::from(kind))
            }
        }
    }
}
