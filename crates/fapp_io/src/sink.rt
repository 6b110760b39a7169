// What is written to.
ghost use Rattle.std.specs.Prelude.{◌<◌, length};
ghost use Rattle.fapp_io.specs.Moments.{SinkMoment};
ghost use Rattle.fapp_io.specs.Sink.{Writes};

use crate::source::Failed;

/// Takes bytes, piece by piece, and counts its faults.
pub trait Sink {
    /// The bytes that it took, or `None` where the sink does not tell them, and how often it has
    /// failed. This count never falls.
    ghost moment: { Self → SinkMoment };

    /// Appends bytes from the front of the piece, at least one, and answers how many. A call that
    /// failed appended nothing.
    fn write(&mut self, piece: &[u8]) -> Result<usize, Failed>
        requires { 0 < length piece.now }
        ensures { Writes (moment self.old) (moment self.new) piece.now result };
}
