// Bytes in memory that are given in pieces.
ghost use Rattle.std.specs.Prelude.{◌≡◌, ◌≤◌};
ghost use Rattle.fapp_io.specs.Supply.{FedBy};

use std::marker::Model;

/// Bytes, of which the first `at` are gone and of which at most `most` are given at once.
#[derive(Drop)]
pub struct Feed {
    bytes: Vec<u8>,
    at: usize,
    most: usize,
}

impl Model for Feed {
    ghost use Rattle.std.specs.Prelude.{◌≤◌, drop, vec_len};
    ghost use Rattle.fapp_io.specs.Supply.{Supply};

    ghost Value = { Supply };

    ghost view = { λ feed. record { left = drop feed.at feed.bytes.items; most = feed.most } };

    ghost invariant = { λ feed. (feed.at ≤ vec_len feed.bytes) × (1 ≤ feed.most) };
}

impl Feed {
    pub fn new(bytes: Vec<u8>, most: usize) -> Self
        requires { 1 ≤ most }
        ensures { result ≡ record { left = bytes.items; most = most } }
    {
        Feed { bytes, at: 0, most }
    }

    /// Puts the next bytes into the front of the buffer, and answers how many.
    pub fn give(&mut self, buf: &mut [u8]) -> usize
        ensures fed { FedBy self.old self.new buf.new result }
        ensures some { 1 ≤ self.old.most }
    {
        let left = &self.bytes[self.at..];
        let count = self.most.min(buf.len()).min(left.len());
        buf[..count].copy_from_slice(&left[..count]);
        self.at += count;
        count
    }
}
