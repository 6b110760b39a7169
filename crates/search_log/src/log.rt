// The lines that the jobs of one holder found, in order.
ghost use Rattle.std.specs.Prelude.{◌≡◌, ◌<◌, ◌≤◌, ◌^◌, length, None, Some, OnErr, OnOk, IfOk, MatchOption};
ghost use Rattle.search_log.specs.Segments.{ended};
ghost use Rattle.search_log.specs.Logs.{KeepsBest, cut_behind, empty_log, log_with_line, with_segment};

use crate::{LogLine, Segment};
use fapp_model::{Items, NoMemory, Triple};
use std::alloc::Global;
use std::marker::Model;

/// An assignment with its cost.
#[derive(Debug, Drop)]
pub struct KeptPlan {
    pub cost: Triple,
    /// The index of a choice for each path.
    pub plan: Items<u16>,
}

/// Lines, of which each rests on earlier ones and on rows, the segments that were published as
/// rows, and the best assignment that was found.
#[derive(Drop)]
pub struct Log {
    alloc: Global,
    lines: Vec<LogLine>,
    segments: Vec<Segment>,
    best: Option<KeptPlan>,
}

impl Model for Log {
    ghost use Rattle.std.specs.Prelude.{◌<◌, ◌≤◌, ◌^◌, length};
    ghost use Rattle.search_log.specs.Segments.{ended};
    ghost use Rattle.search_log.specs.LogStates.{LogState};

    ghost Value = { LogState };

    ghost view = { λ log. record {
      lines = log.lines.items;
      segments = log.segments.items;
      best = log.best;
    } };

    ghost invariant = { λ log. (length log.lines.items < 2 ^ 32)
        × (ended log.segments.items ≤ length log.lines.items)
        × (length log.segments.items ≤ ended log.segments.items) };
}

impl Log {
    /// No line. It takes no memory now; the log keeps the allocator for later.
    pub fn new(alloc: Global) -> Log
        ensures { result ≡ empty_log }
    {
        Log {
            alloc,
            lines: Vec::new(alloc),
            segments: Vec::new(alloc),
            best: None,
        }
    }

    /// Adds a line, and answers its place, from 0. NoMemory leaves the log as it was; it also comes
    /// where there are 2^32 - 1 lines.
    pub fn push(&mut self, line: LogLine) -> Result<u32, NoMemory>
        ensures ok { IfOk result (λ place. (place ≡ length self.old.lines)
            × (self.new ≡ log_with_line self.old line)) }
        ensures err { OnErr result (self.new ≡ self.old) }
    {
        let place = self.lines.len();
        if place >= u32::MAX as usize {
            return Err(NoMemory);
        }
        self.lines.push(line)?;
        Ok(place as u32)
    }

    /// Ends a segment with the last line, which was published as that row. NoMemory leaves the log
    /// as it was.
    pub fn home(&mut self, row: u32) -> Result<(), NoMemory>
        requires { ended self.old.segments < length self.old.lines }
        ensures ok { OnOk result (self.new ≡ with_segment self.old row) }
        ensures err { OnErr result (self.new ≡ self.old) }
    {
        let last = (self.lines.len() - 1) as u32;
        self.segments.push(Segment { last, row })?;
        Ok(())
    }

    /// Drops the lines from that place on that stand behind the end of the last segment.
    pub fn cut(&mut self, from: u32)
        ensures { self.new ≡ cut_behind self.old from }
    {
        let end = end_of(&self.segments);
        self.lines.truncate((from as usize).max(end));
    }

    /// Keeps an assignment, the index of a choice for each path, where none was kept or it costs
    /// less than the kept one. NoMemory leaves the log as it was.
    pub fn keep_best(&mut self, triple: Triple, plan: &[u16]) -> Result<(), NoMemory>
        ensures ok { OnOk result (KeepsBest self.old triple plan.now self.new) }
        ensures err { OnErr result (self.new ≡ self.old) }
    {
        if let Some(best) = &self.best {
            if !triple.is_below(best.cost) {
                return Ok(());
            }
        }
        let plan = Items::from_vec(Vec::from_slice(self.alloc, plan)?);
        self.best = Some(KeptPlan { cost: triple, plan });
        Ok(())
    }

    /// The kept assignment and its cost. None comes exactly where nothing was kept.
    pub fn best(&self) -> Option<(Triple, &[u16])>
        ensures { MatchOption result (self.now.best ≡ None) (λ kept.
            self.now.best ≡ Some (record { cost = kept.0; plan = kept.1.now })) }
    {
        match &self.best {
            Some(best) => Some((best.cost, best.plan.as_slice())),
            None => None,
        }
    }

    /// How many lines there are. The last segment ends with one of them.
    pub fn len(&self) -> u32
        ensures count { result ≡ length self.now.lines }
        ensures ended { ended self.now.segments ≤ result }
    {
        self.lines.len() as u32
    }

    /// The lines, in order.
    pub fn lines(&self) -> &[LogLine]
        ensures { result.now ≡ self.now.lines }
    {
        &self.lines
    }

    /// The segments, in order.
    pub fn segments(&self) -> &[Segment]
        ensures segments { result.now ≡ self.now.segments }
        ensures few { length result.now < 2 ^ 32 }
    {
        &self.segments
    }

    /// The lines and the segments, in place.
    pub fn into_parts(self) -> (Vec<LogLine>, Vec<Segment>)
        ensures lines { result.0.items ≡ self.lines }
        ensures segments { result.1.items ≡ self.segments }
    {
        let Log {
            alloc: _,
            lines,
            segments,
            best: _,
        } = self;
        (lines, segments)
    }
}

/// How many lines stand up to the end of the last segment.
fn end_of(segments: &[Segment]) -> usize
    ensures { result ≡ ended segments.now }
{
    match segments.last() {
        Some(segment) => segment.last as usize + 1,
        None => 0,
    }
}
