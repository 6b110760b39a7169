// A source over a reader of std. What a file or a terminal gives is known to no proof.
ghost use Rattle.std.specs.Prelude.{◌≡◌, ◌<◌, length};
ghost use Rattle.fapp_io.specs.Counts.{CountsFaults};
ghost use Rattle.fapp_io.specs.Source.{ReadsBytes};

use crate::source::{Failed, Source};
use std::io::Read;
use std::marker::Model;

/// A source over a reader. It counts each error of the reader, up to the last value of its counter.
#[derive(Drop)]
pub struct StdSource<R: Read> {
    reader: R,
    faults: u64,
}

impl<R: Read> Model for StdSource<R> {
    ghost use Rattle.fapp_io.specs.Moments.{SourceMoment};

    ghost Value = { SourceMoment };

    ghost view = { λ source. record { left = R.remaining source.reader; faults = source.faults } };
}

impl<R: Read> StdSource<R> {
    /// Tells what the reader tells, and has failed no time so far.
    pub fn new(reader: R) -> Self
        ensures { result ≡ record { left = R.remaining reader; faults = 0 } }
    {
        StdSource { reader, faults: 0 }
    }
}

impl<R: Read> Source for StdSource<R> {
    ghost moment = { λ source. source };

    fn read(&mut self, buf: &mut [u8]) -> Result<usize, Failed>
        requires { 0 < length buf.old }
        ensures reads { ReadsBytes self.old self.new buf.new result }
        ensures counted { CountsFaults self.old.faults self.new.faults result }
    {
        match self.reader.read(buf) {
            Ok(count) => Ok(count),
            Err(_) => {
                self.faults = self.faults.saturating_add(1);
                Err(Failed)
            }
        }
    }
}
