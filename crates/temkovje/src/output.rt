// An output that is written in pieces.
use std::alloc::Global;
use std::fmt;
use std::io::{self, BufWriter, Write};

const PIECE: usize = 65_536;

/// Text on its way to an output. The first error is kept.
#[derive(Drop)]
pub struct Output<W: Write + Drop> {
    to: BufWriter<W>,
    failed: io::Result<()>,
}

impl<W: Write + Drop> Output<W> {
    pub fn new(heap: Global, to: W) -> io::Result<Output<W>> {
        Ok(Output {
            to: BufWriter::with_capacity(heap, PIECE, to)?,
            failed: Ok(()),
        })
    }

    /// Writes what is left, and answers the first error.
    pub fn finish(&mut self) -> io::Result<()> {
        self.failed?;
        self.to.flush()
    }
}

impl<W: Write + Drop> fmt::Write for Output<W> {
    fn write_str(&mut self, text: &str) -> fmt::Result {
        match self.to.write_all(text.as_bytes()) {
            Ok(()) => Ok(()),
            Err(error) => {
                self.failed = Err(error);
                Err(fmt::Error)
            }
        }
    }
}
