// The texts of networks and prefix lengths.
#![tactic(auto)]

mod ip4;
mod ip6;
mod prefixes;

pub use ip4::{read_front, read_ip4};
pub use ip6::{read_address, read_ip6};
pub use prefixes::{read_dual, read_length4, read_length6};

// The number that four octets at a place write, with the place after them.
#[derive(Clone, Copy)]
pub struct Front {
    pub value: u32,
    pub end: usize,
}

// Both prefix lengths of an `a` or `mx` term.
#[derive(Clone, Copy)]
pub struct Lengths {
    pub four: u8,
    pub six: u8,
}
