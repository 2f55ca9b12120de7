use crate::fields::field;
use bstr::ByteSlice;

/// How files begin that are no texts of lines, what they are, and what to do.
const FILES: [(&[u8], &str); 10] = [
    (
        b"\x1f\x8b",
        "is a gzip file: gunzip it, or use <(zcat FILE)",
    ),
    (b"PK\x03\x04", "is a zip file: unzip it"),
    (b"BZh", "is a bzip2 file: unpack it"),
    (b"\xfd7zXZ", "is an xz file: unpack it"),
    (b"\x28\xb5\x2f\xfd", "is a zstd file: unpack it"),
    (b"\xef\xbb\xbf", "begins with a byte order mark: remove it"),
    (b"\xff\xfe", "is in UTF-16: save it as ASCII or UTF-8"),
    (b"\xfe\xff", "is in UTF-16: save it as ASCII or UTF-8"),
    (b"{", "looks like JSON"),
    (b"[", "looks like JSON"),
];

/// What a line of a graph is.
pub(crate) const ARC: &str = "a line of a graph";

/// What a line of a query file is.
pub(crate) const PAIR: &str = "a line of pairs";

/// How the lines of the texts of the Ninth DIMACS Implementation Challenge begin, and what they are.
const TEXTS: [(&str, &str); 8] = [
    ("p sp", ARC),
    ("p aux sp p2p", PAIR),
    ("p aux sp ss", "a line of sources"),
    ("p aux sp co", "a line of coordinates"),
    ("a", ARC),
    ("q", PAIR),
    ("s", "a line of sources"),
    ("v", "a line of coordinates"),
];

/// What a file with these first bytes is, if it is no text of lines.
pub(crate) fn file_of(head: &[u8]) -> Option<&'static str> {
    for (begin, what) in FILES {
        if head.starts_with(begin) {
            return Some(what);
        }
    }
    None
}

/// What a line is, if it is of such a text.
pub(crate) fn text_of(line: &[u8]) -> Option<&'static str> {
    for (begin, what) in TEXTS {
        if begins_with(line, begin) {
            return Some(what);
        }
    }
    None
}

// Whether the first fields of a line are these words.
fn begins_with(line: &[u8], words: &str) -> bool {
    for (place, word) in words.as_bytes().fields().enumerate() {
        if field(line, place) != word {
            return false;
        }
    }
    true
}
