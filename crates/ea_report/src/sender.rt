//! Sending bytes to a device.
ghost use Rattle.std.specs.Prelude.{◌≤◌, OnOk, IfErr};
ghost use Rattle.ea_report.specs.Sent.{SendsWhole, SendsFront};

use ea_base::MOST_INTERRUPTIONS;
use ea_bytes::{ByteOut, DeviceFault};

/// Sends all bytes, given the number of earlier interruptions. An error has the number of bytes sent.
pub(crate) fn send<W: ByteOut>(
    out: &mut W,
    bytes: &[u8],
    interruptions: &mut u64,
) -> Result<(), usize>
    requires { interruptions.old ≤ MOST_INTERRUPTIONS }
    ensures ok { OnOk result (SendsWhole (W.seen out.old) (W.seen out.new) bytes.now
        interruptions.old interruptions.new) }
    ensures err { IfErr result (SendsFront (W.seen out.old) (W.seen out.new) bytes.now
        interruptions.old) }
    ensures borne { interruptions.new ≤ MOST_INTERRUPTIONS }
{
    let mut sent = 0;
    while sent < bytes.len() {
        match out.write(&bytes[sent..]) {
            Ok(count) => sent += count,
            Err(DeviceFault::Failed) => return Err(sent),
            Err(DeviceFault::Interrupted) => {
                if *interruptions == MOST_INTERRUPTIONS {
                    return Err(sent);
                }
                *interruptions += 1;
            }
        }
    }
    Ok(())
}
