//! Texts of a few pieces.
ghost use Rattle.std.specs.Prelude.{◌≡◌, ◌<◌, ◌≤◌, ◌+◌, ◌*◌, ◌^◌, [], IfOk, IfErr, OnOk, length};
ghost use Rattle.std.specs.List.{flat_map};
ghost use Rattle.ea_report.specs.Deliverers.{direct_delivery};
ghost use Rattle.ea_report.specs.Sent.{IsCutBy, IsWhole};
ghost use Rattle.ea_report.specs.Writers.{AddsOrGivesUp};

use crate::direct_text::Direct;
use crate::report::{WriteFault, WriteFaultKind};
use crate::sender::send;
use ea_bytes::ByteOut;

impl Direct {
    /// Sends bytes.
    pub(crate) fn put<W: ByteOut>(&mut self, bytes: &[u8], out: &mut W) -> Result<(), WriteFault>
        ensures { AddsOrGivesUp (W.seen out.old) (direct_delivery self.old) (W.seen out.new)
            (direct_delivery self.new) 1 bytes.now result }
    {
        match send(out, bytes, &mut self.interruptions) {
            Ok(()) => {
                self.written = self.written.saturating_add(bytes.len() as u128);
                Ok(())
            }
            Err(sent) => Err(WriteFault {
                written: self.written.saturating_add(sent as u128),
                kind: WriteFaultKind::WriteFailed,
            }),
        }
    }
}

impl Direct {
    /// Sends more pieces of the text, one after another, without taking memory.
    ///
    /// Fails with `WriteFailed` if a write failed, took none of the bytes left, or was interrupted for the
    /// 1,001st time over the whole text. The bytes written before are the first of the text.
    pub fn put_pieces<W: ByteOut>(
        &mut self,
        pieces: &[&[u8]],
        out: &mut W,
    ) -> Result<(), WriteFault>
        ensures { AddsOrGivesUp (W.seen out.old) (direct_delivery self.old) (W.seen out.new)
            (direct_delivery self.new) (length pieces.now)
            (flat_map (λ piece. piece.now) pieces.now) result }
    {
        for piece in pieces {
            self.put(piece, out)?;
        }
        Ok(())
    }
}

/// Writes the pieces of a text, up to a thousand, one after another, without taking memory. Returns the
/// number of bytes written.
///
/// Fails with `WriteFailed` if a write failed, took none of the bytes left, or was interrupted for the
/// 1,001st time in this call. The bytes written before are the first of the text.
pub fn write_pieces<W: ByteOut>(pieces: &[&[u8]], out: &mut W) -> Result<u128, WriteFault>
    requires few { length pieces.now ≤ 1000 }
    ensures ok { let before = W.seen out.old in
        let after = W.seen out.new in
        IfOk result (IsWhole before after (flat_map (λ piece. piece.now) pieces.now)) }
    ensures err { let before = W.seen out.old in
        let after = W.seen out.new in
        IfErr result (IsCutBy before after (flat_map (λ piece. piece.now) pieces.now)) }
    // No memory is taken, so the device is the only cause.
    ensures kind { IfErr result (λ fault. fault.kind ≡ WriteFaultKind.WriteFailed) }
{
    let mut direct = Direct {
        written: 0,
        interruptions: 0,
    };
    match direct.put_pieces(pieces, out) {
        Ok(()) => Ok(direct.written),
        Err(fault) => Err(fault),
    }
}
