//! The seed of a run's hash table.

use osm_words::orders::Order;
use std::hash::RandomState;
use std::io;
use std::random::RandomSource;

// Bytes for a seed that nothing is hashed under.
struct Zeros;

impl RandomSource for Zeros {
    fn fill_bytes(&self, bytes: &mut [u8]) -> io::Result<()> {
        bytes.fill(0);
        Ok(())
    }
}

// How a run hashes: under a seed of random bytes if it has a hash table, as `changes` alone has, so
// that all else runs without random bytes.
pub fn hashing_of(rt: &HostRuntime, order: Order<'_>) -> io::Result<RandomState> {
    match order {
        Order::Changes { .. } => RandomState::new(rt),
        _ => RandomState::new(&Zeros),
    }
}
