// Writers that take less than they are given.

use std::io::{self, ErrorKind, Write};

/// A writer that takes one byte at a time.
#[derive(Drop)]
pub struct ByteWise<W> {
    pub inner: W,
}

impl<W: Write> Write for ByteWise<W> {
    ghost contents = { λ writer. W.contents writer.inner };

    fn write(&mut self, bytes: &[u8]) -> io::Result<usize> {
        self.inner.write(&bytes[..bytes.len().min(1)])
    }

    fn flush(&mut self) -> io::Result<()> {
        self.inner.flush()
    }
}

/// A writer that fails behind so many bytes.
#[derive(Drop)]
pub struct FailsBehind<W> {
    pub inner: W,
    pub room: usize,
}

impl<W: Write> Write for FailsBehind<W> {
    ghost contents = { λ writer. W.contents writer.inner };

    fn write(&mut self, bytes: &[u8]) -> io::Result<usize> {
        if self.room == 0 {
            return Err(io::Error::from(ErrorKind::StorageFull));
        }
        let count = self.inner.write(&bytes[..bytes.len().min(self.room)])?;
        self.room -= count;
        Ok(count)
    }

    fn flush(&mut self) -> io::Result<()> {
        self.inner.flush()
    }
}

/// A writer that takes nothing, and says so.
#[derive(Drop)]
pub struct TakesNothing;

impl Write for TakesNothing {
    fn write(&mut self, _bytes: &[u8]) -> io::Result<usize> {
        Ok(0)
    }

    fn flush(&mut self) -> io::Result<()> {
        Ok(())
    }
}
