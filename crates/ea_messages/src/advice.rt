//! Guessing the kind of a file by its first bytes.

/// What a file may be other than plain text with line feeds.
#[derive(Clone, Copy, Debug, PartialEq, Eq)]
pub enum Encoding {
    /// Compressed by gzip.
    Gzip,
    /// Compressed by zstd.
    Zstd,
    /// UTF-8 with a byte-order mark.
    Marked,
    /// UTF-16.
    Wide,
    /// Lines that end in a carriage return alone, as on old Macs.
    OldMac,
}

impl Encoding {
    /// What it is, and what to do.
    pub fn advice(self) -> &'static str {
        match self {
            Encoding::Gzip =>
                "this looks like a gzip file: zcat it into -, as in `zcat FILE | earliest run - starts.ss`",
            Encoding::Zstd =>
                "this looks like a zstd file: zstdcat it into -, as in `zstdcat FILE | earliest run - starts.ss`",
            Encoding::Marked =>
                "the file begins with a byte-order mark: save it as UTF-8 without one, or as ASCII",
            Encoding::Wide =>
                "this looks like UTF-16: save it as UTF-8 without a byte-order mark, or as ASCII",
            Encoding::OldMac =>
                "its lines end in carriage returns alone, as on old Macs: save it with line feeds",
        }
    }
}

/// What a text seems to be by its first bytes; none if it may be plain text.
pub fn encoding_of(front: &[u8]) -> Option<Encoding> {
    if front.starts_with(&[0x1f, 0x8b]) {
        Some(Encoding::Gzip)
    } else if front.starts_with(&[0x28, 0xb5, 0x2f, 0xfd]) {
        Some(Encoding::Zstd)
    } else if front.starts_with(&[0xef, 0xbb, 0xbf]) {
        Some(Encoding::Marked)
    } else if front.starts_with(&[0xff, 0xfe]) || front.starts_with(&[0xfe, 0xff]) {
        Some(Encoding::Wide)
    } else if front.contains(&0) {
        Some(Encoding::Wide)
    } else if front.contains(&b'\r') && !front.contains(&b'\n') {
        Some(Encoding::OldMac)
    } else {
        None
    }
}
