//! The totals of a report, written without taking memory.
ghost use Rattle.std.specs.Prelude.{◌≡◌, ◌<◌, ◌≤◌, ◌+◌, ◌^◌, ◌*◌, ◌++◌, ℕ, [], List, Option, OnOk, IfOk, IfErr, length, codes, decimal, map};
ghost use Rattle.std.specs.List.{flat_map};
ghost use Rattle.ea_report.specs.Stats.{total_line, number_end, stats_text};
ghost use Rattle.ea_report.specs.Report.{spaced};
ghost use Rattle.ea_bytes.specs.Device.{HasGivenUp};
ghost use Rattle.ea_report.specs.Deliverers.{direct_delivery};
ghost use Rattle.ea_report.specs.Sent.{IsCutBy, IsWhole};
ghost use Rattle.ea_report.specs.Writers.{AddsOrGivesUp, WritesOrCuts};

use crate::direct_text::Direct;
use crate::report::{WriteFault, WriteFaultKind};
use ea_bytes::ByteOut;
use itoa::Buffer;

/// Totals over all problems and workers of a run.
#[derive(Clone, Copy, Debug, PartialEq, Eq)]
pub struct Totals {
    /// Entries of sources that the heaps took.
    pub seeded: u128,
    /// Entries that workers pushed.
    pub pushed: u128,
    /// Entries that workers popped.
    pub popped: u128,
    /// Popped entries whose node had an earlier arrival when visited.
    pub stale: u128,
    /// Popped entries whose node's arcs were scanned.
    pub scanned: u128,
    /// Entries handed back by workers or by the seeding, after a refused push.
    pub returned: u128,
    /// Entries left in the heaps when the workers ended.
    pub drained: u128,
    /// Open nodes when the finishing pass began.
    pub finish: u128,
}

impl Direct {
    /// Sends a field after a space.
    fn put_field<W: ByteOut>(&mut self, field: &[u8], out: &mut W) -> Result<(), WriteFault>
        ensures { AddsOrGivesUp (W.seen out.old) (direct_delivery self.old) (W.seen out.new)
            (direct_delivery self.new) 2 (spaced field.now) result }
    {
        match self.put(b" ".as_slice(), out) {
            Ok(()) => self.put(field, out),
            Err(fault) => Err(fault),
        }
    }
}

impl Direct {
    /// Sends the line of a total.
    fn put_total<W: ByteOut>(
        &mut self,
        name: &[u8],
        total: u128,
        out: &mut W,
    ) -> Result<(), WriteFault>
        ensures { AddsOrGivesUp (W.seen out.old) (direct_delivery self.old) (W.seen out.new)
            (direct_delivery self.new) 6 (total_line (name.now, total)) result }
    {
        match self.put(b"c".as_slice(), out) {
            Ok(()) => self.put_fields(name, total, out),
            Err(fault) => Err(fault),
        }
    }

    /// Sends the fields of a total, and the end of its line.
    fn put_fields<W: ByteOut>(
        &mut self,
        name: &[u8],
        total: u128,
        out: &mut W,
    ) -> Result<(), WriteFault>
        ensures { AddsOrGivesUp (W.seen out.old) (direct_delivery self.old) (W.seen out.new)
            (direct_delivery self.new) 5 (spaced name.now ++ number_end total) result }
    {
        match self.put_field(name, out) {
            Ok(()) => self.put_number(total, out),
            Err(fault) => Err(fault),
        }
    }

    /// Sends a number after a space, and the end of its line.
    fn put_number<W: ByteOut>(&mut self, number: u128, out: &mut W) -> Result<(), WriteFault>
        ensures { AddsOrGivesUp (W.seen out.old) (direct_delivery self.old) (W.seen out.new)
            (direct_delivery self.new) 3 (number_end number) result }
    {
        let mut buffer = Buffer::new();
        match self.put_field(buffer.format(number).as_bytes(), out) {
            Ok(()) => self.put(b"\n".as_slice(), out),
            Err(fault) => Err(fault),
        }
    }
}

/// The name of a total, and its value.
type Row<'a> = (&'a [u8], u128);

impl Direct {
    /// Sends the lines of totals.
    fn put_totals<W: ByteOut>(&mut self, rows: &[Row<'_>], out: &mut W) -> Result<(), WriteFault>
        ensures { AddsOrGivesUp (W.seen out.old) (direct_delivery self.old) (W.seen out.new)
            (direct_delivery self.new) (length rows.now * 6)
            (flat_map (λ row. total_line (row.0.now, row.1)) rows.now) result }
    {
        for row in rows {
            self.put_total(row.0, row.1, out)?;
        }
        Ok(())
    }
}

/// Sends the eight totals, and returns the number of bytes sent.
fn send_stats<W: ByteOut>(totals: &Totals, out: &mut W) -> Result<u128, WriteFault>
    ensures writes { WritesOrCuts (48 * 2 ^ 64) (W.seen out.old) (W.seen out.new)
        (stats_text totals.now) result }
    ensures kind { IfErr result (λ fault. fault.kind ≡ WriteFaultKind.WriteFailed) }
{
    let rows = [
        (b"seeded".as_slice(), totals.seeded),
        (b"pushed".as_slice(), totals.pushed),
        (b"popped".as_slice(), totals.popped),
        (b"stale".as_slice(), totals.stale),
        (b"scanned".as_slice(), totals.scanned),
        (b"returned".as_slice(), totals.returned),
        (b"drained".as_slice(), totals.drained),
        (b"finish".as_slice(), totals.finish),
    ];
    let mut direct = Direct {
        written: 0,
        interruptions: 0,
    };
    match direct.put_totals(rows.as_slice(), out) {
        Ok(()) => Ok(direct.written),
        Err(fault) => Err(fault),
    }
}

/// Writes the eight totals without taking memory. Returns the number of bytes written.
///
/// Fails with `WriteFailed` if a write failed, took none of the bytes left, or was interrupted for the
/// 1,001st time. The bytes written before are the first of the text.
pub fn write_stats<W: ByteOut>(totals: &Totals, out: &mut W) -> Result<u128, WriteFault>
    ensures ok { let before = W.seen out.old in
        let after = W.seen out.new in
        IfOk result (IsWhole before after (stats_text totals.now)) }
    ensures err { let before = W.seen out.old in
        let after = W.seen out.new in
        IfErr result (IsCutBy before after (stats_text totals.now)) }
    // No memory is taken, so the device is the only cause.
    ensures kind { IfErr result (λ fault. fault.kind ≡ WriteFaultKind.WriteFailed) }
    ensures small { IfErr result (λ fault. fault.written ≤ 48 * 2 ^ 64) }
    ensures device { IfErr result (λ fault. fault.kind ≡ WriteFaultKind.WriteFailed →
        HasGivenUp (W.seen out.old) (W.seen out.new)) }
{
    send_stats(totals, out)
}
