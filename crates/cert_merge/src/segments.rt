// The logs' lines apart from their segments, and the segments by row.
ghost use Rattle.std.specs.Prelude.{◌≡◌, ◌<◌, ◌≤◌, ◌++◌, length, map, All, AllPairs, IfOk, OnOk};
ghost use Rattle.std.specs.List.{AllAdjacentBelow};
ghost use Rattle.std.specs.List.Sorted.{IsPermutation};
ghost use Rattle.search_log.specs.GoodLogs.{all_lines, piece_of, pieces_of};
ghost use Rattle.cert_merge.specs.Growth.{IsPieceNotAfter};

use crate::remainder::Remainder;
use fapp_model::NoMemory;
use search_log::{Log, Piece, Segment};
use std::alloc::Global;

/// Some logs, taken apart.
#[derive(Drop)]
pub(crate) struct Parts {
    /// The lines of each log.
    pub(crate) rests: Vec<Remainder>,
    /// The segments of all logs.
    pub(crate) pieces: Vec<Piece>,
}

/// Takes logs apart. NoMemory also comes where there are 2^32 logs or more.
pub(crate) fn parted(alloc: Global, logs: Vec<Log>) -> Result<Parts, NoMemory>
    ensures rests { IfOk result (λ parts. parts.rests.items ≡ all_lines logs.items) }
    ensures pieces { IfOk result (λ parts. parts.pieces.items ≡ pieces_of logs.items) }
{
    let mut rests = Vec::with_capacity(alloc, logs.len())?;
    let mut pieces = Vec::new(alloc);
    for log in logs {
        let Ok(place) = u32::try_from(rests.len()) else {
            return Err(NoMemory);
        };
        let (lines, segments) = log.into_parts();
        push_pieces(&mut pieces, place, &segments)?;
        rests.push(Remainder::of(lines))?;
    }
    Ok(Parts { rests, pieces })
}

/// Adds the segments of a log.
fn push_pieces(pieces: &mut Vec<Piece>, log: u32, segments: &[Segment]) -> Result<(), NoMemory>
    ensures { OnOk result (pieces.new.items ≡ pieces.old.items ++ map (piece_of log) segments.now) }
{
    for segment in segments {
        pieces.push(Piece {
            row: segment.row,
            log,
            last: segment.last,
        })?;
    }
    Ok(())
}

/// One more than the greatest row, or 0.
pub(crate) fn room_of(pieces: &[Piece]) -> usize
    ensures { All (λ p. p.row < result) pieces.now }
{
    let mut room = 0;
    for piece in pieces {
        if room <= piece.row as usize {
            room = piece.row as usize + 1;
        }
    }
    room
}

/// Puts segments in the order of their rows.
pub(crate) fn sort_by_row(pieces: &mut [Piece])
    ensures same { IsPermutation pieces.old pieces.new }
    ensures ordered { AllPairs (λ p q. p.row ≤ q.row) pieces.new }
{
    sort(pieces);
}

fn sort(pieces: &mut [Piece])
    ensures same { IsPermutation pieces.old pieces.new }
    ensures ordered { AllAdjacentBelow IsPieceNotAfter pieces.new (length pieces.new) }
{
    pieces.sort_unstable();
}
