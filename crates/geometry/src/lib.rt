//! Where the bands lie, and which blocks a transfer touches. Nothing here goes from block to block.
#![tactic(auto)]

ghost use Rattle.std.specs.Prelude.{◌≡◌, ℕ, true, false, ◌↔◌, ◌+◌, ◌<◌, length};
ghost use Rattle.std.specs.List.{list_any};
ghost use Rattle.answer.specs.Numbers.{answer_number};
ghost use Rattle.geometry.specs.Blocks.{covers, any_block, meets_of, meets_any, overlapping, band_spans};
ghost use Rattle.geometry.specs.Events.{no_span, past_end, transfer_answer, Places, LockedTransfer, OverlapRefused};
ghost use Rattle.geometry.specs.Parts.{Alike, OneBand, Barred, closed_in};

use answer::Refusal;

/// Blocks of the drive: `length` of them from the block `start` on.
#[derive(Clone, Copy, Debug, PartialEq, Eq)]
pub struct Span {
    pub start: u64,
    pub length: u64,
}

/// Blocks that lie in one band, from a block on.
#[derive(Clone, Copy)]
struct Run {
    band: usize,
    count: u64,
}

impl Span {
    /// No blocks.
    #[tactic(auto, unfolding(crate::specs::Events::no_span))]
    pub fn none() -> Span
        ensures { result ≡ no_span }
    {
        Span {
            start: 0,
            length: 0,
        }
    }

    fn covers(self, block: u64) -> bool
        ensures { result ≡ Rattle.geometry.specs.Blocks.covers self block }
    {
        self.start <= block && block - self.start < self.length
    }

    /// Of the next `n` blocks those that the span treats like the first: all covered, or none.
    fn alike(self, block: u64, n: u64) -> u64
        requires { 0 < n }
        ensures { Alike self block n result }
    {
        if block < self.start {
            return n.min(self.start - block);
        }
        let past = block - self.start;
        if past < self.length {
            return n.min(self.length - past);
        }
        n
    }

    /// Whether two spans share a block.
    #[tactic(auto, using(crate::proofs::Covering::meeting))]
    fn meets(self, other: Span) -> bool
        ensures { result ≡ meets_of self other }
    {
        if self.start < other.start {
            return 0 < other.length && other.start - self.start < self.length;
        }
        0 < self.length && self.start - other.start < other.length
    }

    /// Whether the blocks go past the end of the drive.
    fn is_past_end(self, capacity: u64) -> bool
        ensures { result ≡ past_end capacity self.start self.length }
    {
        capacity < self.start || capacity - self.start < self.length
    }
}

/// The spans of the bands 1, 2, .. below the count.
#[tactic(auto, using(crate::proofs::Scans::local_spans))]
fn local(spans: &[Span; 16], bands: usize) -> &[Span]
    ensures { result.now ≡ band_spans bands spans.now }
{
    if bands <= 1 {
        return &[];
    }
    &spans[1..bands.min(16)]
}

/// The band of a block, and how many of the next blocks lie in the same one.
fn run_of(spans: &[Span], block: u64, limit: u64) -> Run
    requires { 0 < limit }
    ensures { OneBand spans.now block limit result }
{
    let mut count = limit;
    for (i, span) in spans.iter().enumerate() {
        count = span.alike(block, count);
        if span.covers(block) {
            return Run { band: i + 1, count };
        }
    }
    Run { band: 0, count }
}

/// Whether some block of a range lies in a closed band: from run to run.
#[tactic(auto, using(crate::proofs::Sweeps::sweeping))]
fn sweep(spans: &[Span], closed: &[bool; 16], range: Span) -> bool
    requires few { length spans.now < 16 }
    requires word { range.start + range.length < 18446744073709551616 }
    ensures { result ≡ any_block (closed_in spans.now closed.now) range.start range.length }
{
    let mut block = range.start;
    let mut left = range.length;
    // stays: (4) a loop to a condition: it goes by runs and counts nothing of a list
    while 0 < left {
        let run = run_of(spans, block, left);
        if closed[run.band] {
            return true;
        }
        block += run.count;
        left -= run.count;
    }
    false
}

/// Whether a closed band other than 0 has a block of the range.
fn barred(spans: &[Span], closed: &[bool; 16], range: Span) -> bool
    requires { length spans.now < 16 }
    ensures { Barred spans.now closed.now range result }
{
    for (i, span) in spans.iter().enumerate() {
        if closed[i + 1] && range.meets(*span) {
            return true;
        }
    }
    false
}

/// The same as `sweep`, and most often with no sweep: no band is closed, or the closed bands lie elsewhere.
fn touches(spans: &[Span], closed: &[bool; 16], range: Span) -> bool
    requires few { length spans.now < 16 }
    requires word { range.start + range.length < 18446744073709551616 }
    ensures { result ≡ any_block (closed_in spans.now closed.now) range.start range.length }
{
    if !closed.contains(&true) {
        return false;
    }
    if closed[0] || barred(spans, closed, range) {
        return sweep(spans, closed, range);
    }
    false
}

/// A transfer of a range of blocks: 6 past the drive's end, 9 where one of them lies in a closed band, else done.
#[tactic(auto, using(crate::proofs::Refusals::transfers))]
pub fn transfer(
    capacity: u64,
    bands: usize,
    spans: &[Span; 16],
    closed: &[bool; 16],
    range: Span,
) -> Result<(), Refusal>
    ensures result_value { answer_number result ≡ transfer_answer capacity bands spans.now closed.now range.start range.length }
    ensures locked { (answer_number result ≡ 9) ↔ LockedTransfer capacity bands spans.now closed.now range.start range.length }
{
    if range.is_past_end(capacity) {
        return Err(Refusal::PastEnd);
    }
    if touches(local(spans, bands), closed, range) {
        return Err(Refusal::Locked);
    }
    Ok(())
}

/// Whether a span shares a block with one of a list.
fn meets_some(span: Span, others: &[Span]) -> bool
    ensures { result ≡ list_any (λ other. meets_of span other) others.now }
{
    others.iter().any(|other| span.meets(*other))
}

/// Whether two spans of a list share a block: each span against those after it.
#[tactic(auto, using(crate::proofs::Sharing::some_met))]
fn some_meet(spans: &[Span]) -> bool
    ensures { result ≡ overlapping spans.now }
{
    let mut rest = spans;
    while let Some((span, after)) = rest.split_first() {
        if meets_some(*span, after) {
            return true;
        }
        rest = after;
    }
    false
}

/// Whether each span lies before all spans after it, as the bands most often do: then no two share a block. From the last span on down;
/// `low` is where the spans so far start.
#[tactic(auto, using(crate::proofs::Ordered::rises))]
fn rising(spans: &[Span]) -> bool
    ensures { result ≡ true → overlapping spans.now ≡ false }
{
    let mut low = u64::MAX;
    let mut rest = spans;
    while let Some((span, before)) = rest.split_last() {
        if 0 < span.length {
            if low <= span.start || low - span.start < span.length {
                return false;
            }
            low = span.start;
        }
        rest = before;
    }
    true
}

/// Whether two spans of a list share a block, most often with no pair of them looked at.
fn overlap(spans: &[Span]) -> bool
    ensures { result ≡ overlapping spans.now }
{
    !rising(spans) && some_meet(spans)
}

/// A geometry: the band's span in its new place `to`; or a refusal, and the spans as they were: 1 no such band, 5 band 0, 6 past the drive's end,
/// 7 where two bands would share a block.
pub fn place(
    capacity: u64,
    bands: usize,
    spans: &mut [Span; 16],
    band: u64,
    to: Span,
) -> Result<(), Refusal>
    ensures places { Places capacity bands spans.old band to.start to.length result spans.new }
    ensures overlap { (answer_number result ≡ 7) ↔ OverlapRefused capacity bands spans.old band to.start to.length }
{
    if 16 <= band {
        return Err(Refusal::NoRow);
    }
    let at = band as usize;
    if bands <= at {
        return Err(Refusal::NoRow);
    }
    if at == 0 {
        return Err(Refusal::Global);
    }
    if to.is_past_end(capacity) {
        return Err(Refusal::PastEnd);
    }
    let former = spans[at];
    spans[at] = to;
    if overlap(local(spans, bands)) {
        spans[at] = former;
        return Err(Refusal::Overlap);
    }
    Ok(())
}
