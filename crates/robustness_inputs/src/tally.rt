// What is kept of the answers: how often each was given, in a lent slice of counts, and a digest, FNV-1a of 64 bits.

// Where the counts of each call begin: an answer's number is added, and 0 where the answer has none.
pub const EVALUATE: u8 = 0;

pub const EXPLAIN: u8 = 32;

pub const RECORD: u8 = 64;

pub const TERM: u8 = 128;

pub const EXPAND: u8 = 192;

// Where others stand: the explanations that aren't empty; the permerrors after ten lookups and after three void answers; all other results; the reads
// that answered the end; the calls that kept every byte that they did not write, and those that did not; the answers with a lifetime of 0, with that of an
// entry of the table, and with another.
pub const TEXTS: u8 = 100;

pub const TENTHS: u8 = 101;

pub const VOIDS: u8 = 102;

pub const OTHERS: u8 = 103;

pub const ENDS: u8 = 104;

pub const KEPT: u8 = 105;

pub const CHANGED: u8 = 106;

pub const ZEROS: u8 = 107;

pub const LIVES: u8 = 108;

pub const STRAYS: u8 = 109;

// The digest of nothing.
pub const START: u64 = 14695981039346656037;

// A digest with one byte more: the byte is laid over it, and the number is multiplied modulo 2^64 by 2^40 + 435.
fn fold(digest: u64, b: u8) -> u64 {
    (digest ^ b as u64).wrapping_mul(1099511628211)
}

// A digest with bytes more.
fn fold_all(digest: u64, s: &[u8]) -> u64 {
    s.iter().fold(digest, |d, b| fold(d, *b))
}

// A digest with a number below 2^24 more.
pub fn fold_number(digest: u64, n: usize) -> u64 {
    fold_all(digest, &n.to_le_bytes()[..3])
}

// A digest with a text and its length more.
pub fn fold_bytes(digest: u64, s: &[u8]) -> u64 {
    fold_all(fold_number(digest, s.len()), s)
}

// Counts one more at a number behind a place.
pub fn count(counts: &mut [u64], start: u8, number: u8) {
    let at = start as usize + number as usize;
    if at < counts.len() {
        counts[at] = counts[at].saturating_add(1);
    }
}

// Counts whether two buffers are as they were filled but for so many bytes at the front of each.
pub fn count_kept(a: &[u8], a_end: usize, b: &[u8], b_end: usize, counts: &mut [u64]) {
    let is_kept = case_support::is_kept(a, a_end) && case_support::is_kept(b, b_end);
    count(counts, if is_kept { KEPT } else { CHANGED }, 0);
}
