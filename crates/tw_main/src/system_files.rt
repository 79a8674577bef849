//! The files of the system.

use crate::hints::print_reading;
use std::alloc::Global;
use std::io::{IsTerminal, Read};
use std::rt::{Files, Stderr, Stdin};
use std::{fs, io};
use tw_files::InputFiles;
use tw_session::MOST_BYTES;

/// The files of the system, and standard input under the name `-`. If that is a terminal, standard error says that it is read.
#[derive(Drop)]
pub struct SystemFiles<'a, R> {
    rt: &'a R,
    stdin: Stdin,
    stderr: Stderr,
}

impl<'a, R> SystemFiles<'a, R> {
    /// Makes the files of a session from the system's and its standard streams.
    pub fn new(rt: &'a R, stdin: Stdin, stderr: Stderr) -> SystemFiles<'a, R> {
        SystemFiles { rt, stdin, stderr }
    }
}

/// Reads a file to its end, or until there is one byte more than a session accepts.
fn read_most<R: Read + Drop>(alloc: Global, reader: R) -> io::Result<Vec<u8>> {
    let mut bytes = Vec::new(alloc);
    reader.take(MOST_BYTES as u64 + 1).read_to_end(&mut bytes)?;
    Ok(bytes)
}

impl<'a, R: Files> InputFiles for SystemFiles<'a, R> {
    /// Reads a file of the system, or standard input, which is announced if it is a terminal.
    fn read_file(&self, alloc: Global, path: &str) -> io::Result<Vec<u8>> {
        if path == "-" {
            if self.stdin.is_terminal() {
                let _printed = print_reading(&self.stderr);
            }
            return read_most(alloc, self.stdin);
        }
        let file = fs::open(self.rt, path)?;
        read_most(alloc, file)
    }
}
