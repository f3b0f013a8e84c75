// Pseudo-random numbers without a state: a number is a seed, the numbers drawn from a seed are told apart by an index, and each is a seed in turn.
ghost use Rattle.std.specs.Prelude.{◌≤◌};

// The middle bits of a product.
fn scatter(x: u64) -> u64 {
    (x % 4294967296 * 2654435769 + 2246822519) / 65536 % 4294967296
}

// Four rounds over the halves of a number: different numbers become different ones.
fn mix(x: u64) -> u64 {
    let a = x / 4294967296;
    let b = x % 4294967296;
    let c = a ^ scatter(b);
    let d = b ^ scatter(c);
    let e = c ^ scatter(d);
    let f = d ^ scatter(e);
    e % 4294967296 * 4294967296 + f % 4294967296
}

// The number that a seed has at an index.
pub fn draw(seed: u64, index: u64) -> u64 {
    mix(seed.wrapping_add(index % 4294967296 * 2654435769))
}

// A number from 0 to a limit.
pub fn up_to(seed: u64, index: u64, limit: usize) -> usize
    ensures { result ≤ limit }
{
    let drawn = draw(seed, index) as usize;
    match limit.checked_add(1) {
        Some(count) => drawn % count,
        None => drawn,
    }
}

// A byte.
pub fn byte(seed: u64, index: u64) -> u8 {
    (draw(seed, index) % 256) as u8
}

// True so many times in a thousand.
pub fn chance(seed: u64, index: u64, times: usize) -> bool {
    up_to(seed, index, 999) < times
}
