//! How far the dataset at the start of bytes reaches.

ghost use Rattle.std.specs.Prelude.{◌≡◌, ◌↔◌, IsTrue};
ghost use Rattle.osm_data.specs.Steps.Extents.{extent_at, sized_at};
ghost use Rattle.osm_data.specs.declared.extents.Extent.TheVariants as extents;

use osm_o5c::datasets::END;
use osm_o5c::numbers::unsigned;

/// The most bytes of a dataset after its length.
const MAX_SIZE: u64 = 67_108_864;

/// The most bytes of a length.
const MAX_LENGTH: usize = 10;

/// The first type without a length.
pub const FIRST_LONE: u8 = 0xf0;

/// How far the dataset at the start of bytes reaches.
#[derive(Clone, Copy)]
pub enum Extent {
    /// The dataset is whole, or no more bytes can make it valid.
    Whole,
    /// The dataset goes on after the bytes, or is the end byte and the last of the bytes.
    Cut,
    /// The length of the dataset is more than 64 MiB.
    Long,
    /// The dataset is the end byte, and bytes follow it.
    Trailing,
}

/// How far the dataset at the start of the bytes reaches; `Cut` if there are no bytes.
#[tactic(auto, unfolding(crate::specs::Steps::Extents::extent_at))]
pub fn extent_of(bytes: &[u8]) -> Extent
    ensures { result ≡ extent_at bytes.now }
{
    let Some((first, rest)) = bytes.split_first() else {
        return Extent::Cut;
    };
    if *first < FIRST_LONE {
        return sized(rest);
    }
    if *first != END {
        return Extent::Whole;
    }
    if rest.is_empty() {
        Extent::Cut
    } else {
        Extent::Trailing
    }
}

/// Whether the dataset at the start of the bytes is whole.
pub fn is_whole(bytes: &[u8]) -> bool
    ensures { IsTrue result ↔ (extent_at bytes.now ≡ extents.Whole) }
{
    match extent_of(bytes) {
        Extent::Whole => true,
        _ => false,
    }
}

// How far a length and its bytes reach.
#[tactic(auto, unfolding(crate::specs::Steps::Extents::sized_at))]
fn sized(bytes: &[u8]) -> Extent
    ensures { result ≡ sized_at bytes.now }
{
    let Ok((length, rest)) = unsigned(bytes) else {
        return if bytes.len() < MAX_LENGTH {
            Extent::Cut
        } else {
            Extent::Whole
        };
    };
    if length > MAX_SIZE {
        return Extent::Long;
    }
    if length > rest.len() as u64 {
        return Extent::Cut;
    }
    Extent::Whole
}
