// What the calls of a round are given, and what a turn of calls over a growing table leaves.
use address::Address;

// The arguments that the calls of a round share.
#[derive(Clone, Copy)]
pub struct Mail<'a> {
    pub client: Address,
    pub domain: &'a [u8],
    pub sender: &'a [u8],
    pub helo: &'a [u8],
    pub receiver: &'a [u8],
}

// The digest, and whether a question was wanting.
#[derive(Clone, Copy)]
pub struct Turn {
    pub digest: u64,
    pub wanting: bool,
}
