// A sink into memory, some of whose calls fail.
ghost use Rattle.std.specs.Prelude.{◌≡◌, ◌<◌, ◌≤◌, [], length, IfOk};
ghost use Rattle.fapp_io.specs.Memory.{sink_moment, WritesByNumber};
ghost use Rattle.fapp_io.specs.Sink.{Writes};

use crate::NoMemory;
use crate::calls::Calls;
use crate::sink::Sink;
use crate::source::Failed;
use std::alloc::Global;
use std::marker::Model;

/// Keeps the bytes that it takes, has room for so many, and fails at chosen calls.
#[derive(Drop)]
pub struct MemSink {
    taken: Vec<u8>,
    room: usize,
    most: usize,
    calls: Calls,
    faults: u64,
}

impl Model for MemSink {
    ghost use Rattle.std.specs.Prelude.{◌≤◌, vec_len, vec_capacity};
    ghost use Rattle.fapp_io.specs.Memory.{MemSinkView};

    ghost Value = { MemSinkView };

    ghost view = { λ sink. record {
      taken = sink.taken.items;
      room = sink.room;
      most = sink.most;
      fails = sink.calls.fails.items;
      calls = sink.calls.made;
      faults = sink.faults;
    } };

    ghost invariant = { λ sink.
        (vec_len sink.taken ≤ sink.room) × (sink.room ≤ vec_capacity sink.taken)
        × (1 ≤ sink.most) };
}

impl MemSink {
    /// Has room for `room` bytes, and takes at most `most` in a call. The calls numbered in `fails`
    /// fail, the first being number 1, and so do those that find no room. All memory is taken here.
    pub fn new(alloc: Global, room: usize, most: usize, fails: Vec<u64>) -> Result<Self, NoMemory>
        requires { 1 ≤ most }
        ensures { IfOk result (λ sink. sink ≡ record {
          taken = [];
          room = room;
          most = most;
          fails = fails.items;
          calls = 0;
          faults = 0;
        }) }
    {
        Ok(MemSink {
            taken: Vec::with_capacity(alloc, room)?,
            room,
            most,
            calls: Calls::new(fails),
            faults: 0,
        })
    }

    /// The bytes that it took.
    pub fn taken(&self) -> &[u8]
        ensures { result.now ≡ self.now.taken }
    {
        &self.taken
    }
}

impl Sink for MemSink {
    ghost moment = { sink_moment };

    fn write(&mut self, piece: &[u8]) -> Result<usize, Failed>
        requires { 0 < length piece.now }
        ensures writes { Writes (sink_moment self.old) (sink_moment self.new) piece.now result }
        ensures by_number { WritesByNumber self.old self.new piece.now result }
    {
        let fails = self.calls.next_fails();
        let count = self.most.min(piece.len()).min(self.room - self.taken.len());
        if fails || count == 0 {
            self.faults = self.faults.saturating_add(1);
            return Err(Failed);
        }
        self.taken.extend_from_slice(&piece[..count]).unwrap();
        Ok(count)
    }
}
