// The lines of the logs, in their order: segments by row, then what is left of each log.
ghost use Rattle.std.specs.Prelude.{◌≡◌, ◌<◌, List, length, take, drop, All, IfOk, OnOk};
ghost use Rattle.std.specs.List.{range_with_len};
ghost use Rattle.search_log.specs.declared.line.LogLine.{LogLine};
ghost use Rattle.merge_laws.specs.Pieces.{emit_piece, emit_pieces, emit_rests};
ghost use Rattle.merge_laws.specs.Stages.{emit_all};
ghost use Rattle.cert_merge.specs.Growth.{AreLeft, AreGatheredLines, IsSameRoom, HasRoomFor};

use crate::merged::Certificate;
use crate::old_rows::room_of_placed;
use crate::remainder::Remainder;
use crate::segments::{Parts, parted, room_of, sort_by_row};
use cert_lines::Line;
use fapp_model::NoMemory;
use search_log::{Log, Piece};
use std::alloc::Global;

impl Certificate {
    /// Writes the next lines of a log, as many as are asked for or all that are left.
    fn write_lines(
        &mut self,
        log: usize,
        rest: &mut Remainder,
        count: usize,
    ) -> Result<(), NoMemory>
        requires { log < length self.old.own }
        ensures lines { OnOk result (self.new ≡ emit_all log (take count rest.old) self.old) }
        ensures rest { OnOk result (rest.new ≡ drop count rest.old) }
        ensures room { OnOk result (IsSameRoom self.old self.new) }
    {
        for _ in 0..count {
            let Some(line) = rest.next() else {
                return Ok(());
            };
            self.write_line(log, line)?;
        }
        Ok(())
    }

    /// Writes what is left of a log up to a segment's end, which becomes the segment's row.
    fn write_piece(&mut self, rests: &mut [Remainder], piece: &Piece) -> Result<(), NoMemory>
        requires within { HasRoomFor self.old piece.now }
        requires rests { length rests.old ≡ length self.old.own }
        ensures writes { (logs : List (List LogLine)) → AreLeft logs self.old rests.old →
            OnOk result (self.new ≡ emit_piece logs piece.now self.old) }
        ensures left { (logs : List (List LogLine)) → AreLeft logs self.old rests.old →
            OnOk result (AreLeft logs self.new rests.new) }
        ensures room { OnOk result (IsSameRoom self.old self.new) }
    {
        let log = piece.log as usize;
        let count = (piece.last as usize + 1).saturating_sub(self.done(log));
        self.write_lines(log, &mut rests[log], count)?;
        self.land(piece.row, log, piece.last);
        Ok(())
    }

    /// Writes segment after segment.
    fn write_pieces(&mut self, rests: &mut [Remainder], pieces: &[Piece]) -> Result<(), NoMemory>
        requires within { All (HasRoomFor self.old) pieces.now }
        requires rests { length rests.old ≡ length self.old.own }
        ensures writes { (logs : List (List LogLine)) → AreLeft logs self.old rests.old →
            OnOk result (self.new ≡ emit_pieces logs pieces.now self.old) }
        ensures left { (logs : List (List LogLine)) → AreLeft logs self.old rests.old →
            OnOk result (AreLeft logs self.new rests.new) }
        ensures room { OnOk result (IsSameRoom self.old self.new) }
    {
        for piece in pieces {
            self.write_piece(rests, piece)?;
        }
        Ok(())
    }

    /// Writes what is left of each log.
    fn write_rests(&mut self, rests: &mut [Remainder]) -> Result<(), NoMemory>
        requires { length rests.old ≡ length self.old.own }
        ensures { (logs : List (List LogLine)) → AreLeft logs self.old rests.old →
            OnOk result (self.new ≡ emit_rests logs (range_with_len 0 (length logs)) self.old) }
    {
        for log in 0..rests.len() {
            let count = rests[log].len();
            self.write_lines(log, &mut rests[log], count)?;
        }
        Ok(())
    }
}

/// Room for the rows of segments and for the placed ones.
fn room_for(pieces: &[Piece], placed: &[(u32, u32)]) -> usize
    ensures pieces { All (λ p. p.row < result) pieces.now }
    ensures placed { All (λ p. p.0 < result) placed.now }
{
    let by_segments = room_of(pieces);
    let by_lines = room_of_placed(placed);
    if by_segments < by_lines {
        by_lines
    } else {
        by_segments
    }
}

/// The old lines, the arc lines, then the segments of the logs by row, then what is left of each
/// log.
pub(crate) fn gathered(
    alloc: Global,
    old: &[Line],
    placed: &[(u32, u32)],
    arcs: &[Line],
    logs: Vec<Log>,
) -> Result<Certificate, NoMemory>
    ensures { IfOk result (AreGatheredLines old.now placed.now arcs.now logs.items) }
{
    let Parts {
        mut rests,
        mut pieces,
    } = parted(alloc, logs)?;
    sort_by_row(&mut pieces);
    let room = room_for(&pieces, placed);
    let mut merged = Certificate::start(alloc, old, placed, arcs, rests.len(), room)?;
    merged.write_pieces(&mut rests, &pieces)?;
    merged.write_rests(&mut rests)?;
    Ok(merged)
}
