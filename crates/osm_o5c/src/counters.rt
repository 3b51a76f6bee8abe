//! The counters of differences (OSM wiki, O5m: delta coding).

ghost use Rattle.std.specs.Prelude.{◌≡◌, ◌≤◌, ◌+ℤ◌, IfOk};
ghost use Rattle.osm_model.specs.Limits.{IsId};
ghost use Rattle.osm_o5c.specs.Written.{no_counters, member_counter, with_member_counter};
ghost use Rattle.osm_o5c.specs.NumberReading.{wrapped_of, positive_sum_at, id_at};
ghost use Rattle.osm_o5c.specs.NumberReading.{longitude_at, latitude_at};
ghost use Rattle.osm_reading.specs.Answers.{Finds};

use crate::numbers::signed;
use osm_model::form::Why;
use osm_model::kind::Kind;
use osm_model::limits::{MAX_ID, MAX_LAT, MAX_LON};

/// The last value of each field since the last reset, or 0 if there is none. Longitude and latitude
/// are in units of 10^-7 degree.
#[derive(Clone, Copy)]
pub struct Counters {
    pub id: i64,
    pub time: i64,
    pub changeset: i64,
    pub lon: i32,
    pub lat: i32,
    pub way_node: i64,
    pub node_member: i64,
    pub way_member: i64,
    pub relation_member: i64,
}

impl Counters {
    /// The counters after a reset, all 0.
    pub fn new() -> Counters
        ensures { result ≡ no_counters }
    {
        Counters {
            id: 0,
            time: 0,
            changeset: 0,
            lon: 0,
            lat: 0,
            way_node: 0,
            node_member: 0,
            way_member: 0,
            relation_member: 0,
        }
    }

    /// The counter for members of this kind.
    pub fn member(&self, kind: Kind) -> i64
        ensures { result ≡ member_counter kind self.now }
    {
        match kind {
            Kind::Node => self.node_member,
            Kind::Way => self.way_member,
            Kind::Relation => self.relation_member,
        }
    }

    /// Sets the counter for members of this kind.
    pub fn set_member(&mut self, kind: Kind, id: i64)
        ensures { self.new ≡ with_member_counter kind self.old id }
    {
        match kind {
            Kind::Node => self.node_member = id,
            Kind::Way => self.way_member = id,
            Kind::Relation => self.relation_member = id,
        }
    }
}

/// Reads an id as the counter plus the difference at the start, and gives the bytes after it.
#[inline(always)]
#[tactic(auto, unfolding(crate::specs::NumberReading::id_at))]
pub fn id(counter: i64, bytes: &[u8]) -> Result<(i64, &[u8]), Why>
    ensures limits { IfOk result (λ r. IsId r.0) }
    ensures finds { Finds (λ r. (r.0, r.1.now)) result (id_at counter bytes.now) }
{
    let (difference, rest) = signed(bytes)?;
    let sum = counter.checked_add(difference);
    match sum {
        Some(id) if -MAX_ID <= id && id <= MAX_ID => Ok((id, rest)),
        _ => Err(Why::OutOfRange),
    }
}

/// Reads a time or a changeset as the counter plus the difference at the start, and gives the bytes
/// after it.
#[inline(always)]
#[tactic(auto, unfolding(crate::specs::NumberReading::positive_sum_at))]
pub fn positive_sum(counter: i64, bytes: &[u8]) -> Result<(u32, &[u8]), Why>
    ensures finds { Finds (λ r. (r.0, r.1.now)) result (positive_sum_at counter bytes.now) }
    ensures limits { IfOk result (λ r. 1 ≤ r.0) }
{
    let (difference, rest) = signed(bytes)?;
    match counter.checked_add(difference) {
        Some(0) => Err(Why::NoMetadata),
        Some(sum) if 0 < sum && sum <= u32::MAX as i64 => Ok((sum as u32, rest)),
        _ => Err(Why::OutOfRange),
    }
}

/// Reads a longitude as the counter plus the difference at the start, in 32 bits, and gives the
/// bytes after it.
#[inline(always)]
#[tactic(auto, unfolding(crate::specs::NumberReading::longitude_at))]
pub fn longitude(counter: i32, bytes: &[u8]) -> Result<(i32, &[u8]), Why>
    ensures { Finds (λ r. (r.0, r.1.now)) result (longitude_at counter bytes.now) }
{
    let (difference, rest) = signed(bytes)?;
    let lon = wrapped(counter, difference);
    if -MAX_LON <= lon && lon <= MAX_LON {
        Ok((lon, rest))
    } else {
        Err(Why::OutOfRange)
    }
}

/// Reads a latitude as the counter plus the difference at the start, in 32 bits, and gives the
/// bytes after it.
#[inline(always)]
#[tactic(auto, unfolding(crate::specs::NumberReading::latitude_at))]
pub fn latitude(counter: i32, bytes: &[u8]) -> Result<(i32, &[u8]), Why>
    ensures { Finds (λ r. (r.0, r.1.now)) result (latitude_at counter bytes.now) }
{
    let (difference, rest) = signed(bytes)?;
    let lat = wrapped(counter, difference);
    if -MAX_LAT <= lat && lat <= MAX_LAT {
        Ok((lat, rest))
    } else {
        Err(Why::OutOfRange)
    }
}

const TWO_TO_32: i64 = 4_294_967_296;

// The sum, wrapped to 32 bits.
fn wrapped(counter: i32, difference: i64) -> i32
    ensures { result ≡ wrapped_of (counter +ℤ difference) }
{
    let sum = counter as i64 + difference.rem_euclid(TWO_TO_32);
    if sum >= TWO_TO_32 / 2 {
        (sum - TWO_TO_32) as i32
    } else {
        sum as i32
    }
}
