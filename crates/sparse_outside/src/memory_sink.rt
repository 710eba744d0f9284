// A sink over memory, with room for so many bytes.
ghost use Rattle.std.specs.Prelude.{◌≡◌, ◌<◌, ◌≤◌, ◌+◌, ◌++◌, [], length, Some, IfOk, min};
ghost use Rattle.meaning_outside.specs.Faults.{Told};
ghost use Rattle.sparse_outside.specs.Put.{Puts, taken_of};

use crate::sink::{Put, Sink};
use std::alloc::{AllocError, Global};
use std::marker::Model;

/// A sink that keeps what was written, as long as there is room.
#[derive(Drop)]
pub struct MemorySink {
    bytes: Vec<u8>,
    room: usize,
    faults: u64,
}

impl Model for MemorySink {
    ghost use Rattle.std.specs.Prelude.{◌≤◌, ◌+◌, vec_len, vec_capacity};
    ghost use Rattle.sparse_outside.specs.MemorySink.{SinkState};

    ghost Value = { SinkState };

    ghost view = { λ sink. record {
      written = sink.bytes.items;
      room = sink.room;
      faults = sink.faults;
    } };

    // What is still to be written has its memory already.
    ghost invariant = { λ sink. vec_len sink.bytes + sink.room ≤ vec_capacity sink.bytes };
}

impl MemorySink {
    /// An empty sink with room for `room` bytes, which it reserves.
    pub fn new(alloc: Global, room: usize) -> Result<Self, AllocError>
        ensures { IfOk result (λ sink. sink ≡ record { written = []; room = room; faults = 0 }) }
    {
        Ok(MemorySink {
            bytes: Vec::with_capacity(alloc, room)?,
            room,
            faults: 0,
        })
    }

    /// What was written.
    pub fn bytes(&self) -> &[u8]
        ensures { result.now ≡ self.now.written }
    {
        self.bytes.as_slice()
    }
}

impl Sink for MemorySink {
    ghost written = { λ sink. Some sink.written };

    ghost taken = { λ sink. sink.written };

    ghost faults = { λ sink. sink.faults };

    fn put(&mut self, piece: &[u8]) -> Put
        requires { 0 < length piece.now }
        ensures bytes { Puts (Some self.old.written) (Some self.new.written) piece.now result }
        ensures takes { self.new.written ≡ self.old.written ++ taken_of piece.now result }
        ensures cause { Told self.old.faults self.new.faults (result ≡ Put.Failed) }
        ensures once { self.new.faults ≤ self.old.faults + 1 }

        // A put takes what fits, and fails only where nothing does.
        ensures fits { 0 < self.old.room → result ≡ Put.Took (min (length piece.now) self.old.room) }
        ensures full { self.old.room ≡ 0 → result ≡ Put.Failed }
        ensures room { self.new.room + length self.new.written ≡ self.old.room + length self.old.written }
    {
        if self.room == 0 {
            self.faults = self.faults.saturating_add(1);
            return Put::Failed;
        }
        let count = piece.len().min(self.room);
        // The room was reserved.
        self.bytes.extend_from_slice(&piece[..count]).unwrap();
        self.room -= count;
        Put::Took(count)
    }
}
