// A source over bytes in memory, some of whose calls fail.
ghost use Rattle.std.specs.Prelude.{◌≡◌, ◌<◌, ◌≤◌, length};
ghost use Rattle.fapp_io.specs.Memory.{source_moment, ReadsByNumber};
ghost use Rattle.fapp_io.specs.Source.{ReadsBytes};

use crate::calls::Calls;
use crate::feed::Feed;
use crate::source::{Failed, Source};
use std::marker::Model;

/// Gives the bytes of a `Vec` in pieces, and fails at chosen calls.
#[derive(Drop)]
pub struct MemSource {
    feed: Feed,
    calls: Calls,
    faults: u64,
}

impl Model for MemSource {
    ghost use Rattle.fapp_io.specs.Memory.{MemSourceView};

    ghost Value = { MemSourceView };

    ghost view = { λ source. record {
      supply = source.feed;
      fails = source.calls.fails.items;
      calls = source.calls.made;
      faults = source.faults;
    } };
}

impl MemSource {
    /// Gives these bytes, at most `most` in a call. The calls numbered in `fails` fail, the first
    /// being number 1.
    pub fn new(bytes: Vec<u8>, most: usize, fails: Vec<u64>) -> Self
        requires { 1 ≤ most }
        ensures supply { result.supply ≡ record { left = bytes.items; most = most } }
        ensures fails { result.fails ≡ fails.items }
        ensures calls { result.calls ≡ 0 }
        ensures faults { result.faults ≡ 0 }
    {
        MemSource {
            feed: Feed::new(bytes, most),
            calls: Calls::new(fails),
            faults: 0,
        }
    }
}

impl Source for MemSource {
    ghost moment = { source_moment };

    fn read(&mut self, buf: &mut [u8]) -> Result<usize, Failed>
        requires { 0 < length buf.old }
        ensures reads { ReadsBytes (source_moment self.old) (source_moment self.new) buf.new
            result }
        ensures by_number { ReadsByNumber self.old self.new buf.new result }
    {
        if self.calls.next_fails() {
            self.faults = self.faults.saturating_add(1);
            return Err(Failed);
        }
        Ok(self.feed.give(buf))
    }
}
