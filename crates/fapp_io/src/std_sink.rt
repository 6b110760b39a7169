// A sink over a writer of std. What a file or a terminal takes is known to no proof.
ghost use Rattle.std.specs.Prelude.{◌≡◌, ◌<◌, length};
ghost use Rattle.fapp_io.specs.Counts.{CountsFaults};
ghost use Rattle.fapp_io.specs.Sink.{Writes};

use crate::sink::Sink;
use crate::source::Failed;
use std::io::Write;
use std::marker::Model;

/// A sink over a writer. It counts each error of the writer, and each write that took nothing, up
/// to the last value of its counter.
#[derive(Drop)]
pub struct StdSink<W: Write> {
    writer: W,
    faults: u64,
}

impl<W: Write> Model for StdSink<W> {
    ghost use Rattle.fapp_io.specs.Moments.{SinkMoment};

    ghost Value = { SinkMoment };

    ghost view = { λ sink. record { taken = W.contents sink.writer; faults = sink.faults } };
}

impl<W: Write> StdSink<W> {
    /// Tells what the writer tells, and has failed no time so far.
    pub fn new(writer: W) -> Self
        ensures { result ≡ record { taken = W.contents writer; faults = 0 } }
    {
        StdSink { writer, faults: 0 }
    }
}

impl<W: Write> Sink for StdSink<W> {
    ghost moment = { λ sink. sink };

    fn write(&mut self, piece: &[u8]) -> Result<usize, Failed>
        requires { 0 < length piece.now }
        ensures writes { Writes self.old self.new piece.now result }
        ensures counted { CountsFaults self.old.faults self.new.faults result }
    {
        match self.writer.write(piece) {
            Ok(count) if count > 0 => Ok(count),
            _ => {
                self.faults = self.faults.saturating_add(1);
                Err(Failed)
            }
        }
    }
}
