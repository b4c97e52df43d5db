use crate::listing::Flaw;
use std::alloc::{AllocError, Global};
use std::io;
use thiserror::Error;

// Why the program stops with status 1.
#[derive(Debug, Drop, Error)]
pub enum Failure {
    #[error("no such command")]
    Usage,
    #[error("cannot {deed} {path}: {error}")]
    File {
        deed: &'static str,
        path: String,
        error: io::Error,
    },
    #[error("line {number} of the listing: {flaw}")]
    Line {
        number: usize,
        flaw: Flaw,
    },
    #[error(transparent)]
    Io(#[from] io::Error),
    #[error("out of memory")]
    Memory(#[from(alloc)] AllocError),
}

impl Failure {
    // A failed deed on a file; the lack of memory where the path cannot be kept.
    pub fn file(heap: Global, deed: &'static str, path: &str, error: io::Error) -> Failure {
        match String::from_str(heap, path) {
            Ok(path) => Failure::File { deed, path, error },
            Err(lack) => Failure::Memory(lack),
        }
    }
}
