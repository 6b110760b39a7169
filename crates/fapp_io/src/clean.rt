// A source and a sink that never fail.
ghost use Rattle.std.specs.Prelude.{◌≡◌, ◌<◌, ◌≤◌, Some, None, Ok, length, IfOk, IsOk};
ghost use Rattle.fapp_io.specs.Sink.{Writes};
ghost use Rattle.fapp_io.specs.Source.{ReadsBytes};
ghost use Rattle.fapp_io.specs.Supply.{FedBy};
ghost use Rattle.fapp_io.specs.Moments.{clean_source, clean_sink};

use crate::feed::Feed;
use crate::sink::Sink;
use crate::source::{Failed, Source};
use std::marker::Model;

/// Gives the bytes of a `Vec` in pieces, and never fails. Its count of faults is 0.
#[derive(Drop)]
pub struct CleanSource {
    feed: Feed,
}

impl Model for CleanSource {
    ghost use Rattle.fapp_io.specs.Supply.{Supply};

    ghost Value = { Supply };

    ghost view = { λ source. source.feed };
}

impl CleanSource {
    /// Gives these bytes, at most `most` in a call.
    pub fn new(bytes: Vec<u8>, most: usize) -> Self
        requires { 1 ≤ most }
        ensures { result ≡ record { left = bytes.items; most = most } }
    {
        CleanSource {
            feed: Feed::new(bytes, most),
        }
    }
}

impl Source for CleanSource {
    ghost moment = { λ source. clean_source source.left };

    fn read(&mut self, buf: &mut [u8]) -> Result<usize, Failed>
        requires { 0 < length buf.old }
        ensures reads { ReadsBytes (clean_source self.old.left) (clean_source self.new.left) buf.new
            result }
        ensures never_fails { IsOk result }
        ensures fed { IfOk result (FedBy self.old self.new buf.new) }
    {
        Ok(self.feed.give(buf))
    }
}

/// Takes everything, and tells nothing of it. Its count of faults is 0.
#[derive(Clone, Copy, Debug, Default, PartialEq, Eq)]
pub struct CleanSink;

impl CleanSink {
    /// A sink that takes everything.
    pub fn new() -> Self {
        CleanSink
    }
}

impl Sink for CleanSink {
    ghost moment = { λ _. clean_sink };

    fn write(&mut self, piece: &[u8]) -> Result<usize, Failed>
        requires { 0 < length piece.now }
        ensures writes { Writes clean_sink clean_sink piece.now result }
        ensures whole { result ≡ Ok (length piece.now) }
    {
        Ok(piece.len())
    }
}
