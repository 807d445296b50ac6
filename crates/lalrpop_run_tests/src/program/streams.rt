//! Readers and writers that misbehave.

use std::alloc::Global;
use std::io::{self, Error, ErrorKind, Read, Write};

/// A reader of some bytes, a piece at a time, that may be interrupted or fail at one call.
#[derive(Drop)]
pub(crate) struct Pieces<'a> {
    rest: &'a [u8],
    /// How many bytes a call gives at most.
    piece: usize,
    /// How many calls are interrupted before the next that isn't.
    interruptions: u64,
    /// How many calls are interrupted between two that aren't.
    pauses: u64,
    /// How many calls go well before one fails.
    calls: u64,
}

impl<'a> Pieces<'a> {
    /// Whole pieces, after so many interrupted calls.
    pub(crate) fn with_interruptions(rest: &'a [u8], interruptions: u64) -> Pieces<'a> {
        Pieces {
            rest,
            piece: usize::MAX,
            interruptions,
            pauses: 0,
            calls: u64::MAX,
        }
    }

    /// One byte at a time, with so many interrupted calls between every two.
    pub(crate) fn with_pauses(rest: &'a [u8], pauses: u64) -> Pieces<'a> {
        Pieces {
            rest,
            piece: 1,
            interruptions: pauses,
            pauses,
            calls: u64::MAX,
        }
    }

    /// One byte at a time, with a failure after so many calls.
    pub(crate) fn failing(rest: &'a [u8], calls: u64) -> Pieces<'a> {
        Pieces {
            rest,
            piece: 1,
            interruptions: 0,
            pauses: 0,
            calls,
        }
    }
}

impl Read for Pieces<'_> {
    fn read(&mut self, buf: &mut [u8]) -> io::Result<usize> {
        if self.interruptions > 0 {
            self.interruptions -= 1;
            return Err(Error::new(ErrorKind::Interrupted, "interrupted"));
        }
        if self.calls == 0 {
            return Err(Error::other("the reader failed"));
        }
        self.interruptions = self.pauses;
        self.calls -= 1;
        let count = self.rest.len().min(buf.len()).min(self.piece);
        let (front, rest) = self.rest.split_at(count);
        buf[..count].copy_from_slice(front);
        self.rest = rest;
        Ok(count)
    }
}

/// A reader of so many blanks, a piece at a time.
#[derive(Drop)]
pub(crate) struct Blanks {
    /// How many are left.
    pub(crate) left: usize,
    /// How many a call gives at most.
    pub(crate) piece: usize,
}

impl Read for Blanks {
    fn read(&mut self, buf: &mut [u8]) -> io::Result<usize> {
        let count = self.left.min(buf.len()).min(self.piece);
        buf[..count].fill(b' ');
        self.left -= count;
        Ok(count)
    }
}

/// A writer that keeps so many bytes, and takes one at a time; after that it fails.
#[derive(Drop)]
pub(crate) struct Room {
    pub(crate) taken: Vec<u8>,
    room: usize,
    /// How many calls are interrupted before the next that isn't.
    interruptions: u64,
    /// How many calls are interrupted between two that aren't.
    pauses: u64,
}

impl Room {
    /// A writer with this room, after so many interrupted calls.
    pub(crate) fn new(alloc: Global, room: usize, interruptions: u64) -> Room {
        Room {
            taken: Vec::new(alloc),
            room,
            interruptions,
            pauses: 0,
        }
    }

    /// A writer that takes all, with so many interrupted calls between every two bytes.
    pub(crate) fn with_pauses(alloc: Global, pauses: u64) -> Room {
        Room {
            taken: Vec::new(alloc),
            room: usize::MAX,
            interruptions: pauses,
            pauses,
        }
    }
}

impl Write for Room {
    fn write(&mut self, buf: &[u8]) -> io::Result<usize> {
        if self.interruptions > 0 {
            self.interruptions -= 1;
            return Err(Error::new(ErrorKind::Interrupted, "interrupted"));
        }
        if self.room == 0 {
            return Err(Error::other("the writer failed"));
        }
        match buf {
            [] => Ok(0),
            [first, ..] => {
                self.taken.push(*first)?;
                self.interruptions = self.pauses;
                self.room -= 1;
                Ok(1)
            }
        }
    }

    fn flush(&mut self) -> io::Result<()> {
        Ok(())
    }
}
