//! The files of a command.
use ea_bytes::ByteIn;
use ea_load::OptionalFiles;

/// The files that a command names, opened: the network, the starts of searches, those that may be left out, and
/// the report to check.
#[derive(Drop)]
pub struct Opened<R: ByteIn> {
    pub gr: R,
    pub starts: R,
    pub others: OptionalFiles<R>,
    pub report: Option<R>,
}
