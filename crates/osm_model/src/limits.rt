//! The limits of values, our choice if OpenStreetMap names none (docs/DECISIONS.md).

/// The greatest absolute value of an id or a reference.
pub const MAX_ID: i64 = 4_611_686_018_427_387_903;

/// The greatest absolute value of a longitude, in units of 10^-7 degree.
pub const MAX_LON: i32 = 1_800_000_000;

/// The greatest absolute value of a latitude, in units of 10^-7 degree.
pub const MAX_LAT: i32 = 900_000_000;

/// The greatest length of a text, in bytes.
pub const MAX_TEXT: usize = 1_020;

/// The most tags of an object.
pub const MAX_TAGS: usize = 5_000;

/// The most nodes of a way, and the most members of a relation.
pub const MAX_REFS: usize = 32_000;

/// The most changes of a batch.
pub const MAX_CHANGES: usize = 100_000;

/// The most keys of a filter.
pub const MAX_KEYS: usize = 100;

/// The greatest length of a change file, in bytes.
pub const MAX_FILE: usize = 67_108_864;

/// The greatest sequence number.
pub const MAX_SEQUENCE: u32 = 999_999_999;
