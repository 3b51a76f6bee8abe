//! What a line says of an object, part by part; texts and lists as the line spells them.

use osm_model::kind::Key;

/// What a line says of an object. No text in it has an escape.
#[derive(Clone, Copy)]
pub struct FlatLine<'a> {
    pub key: Key,
    pub numbers: Numbers,
    pub user: &'a [u8],
    pub tags: &'a [u8],
    pub what: FlatWhat<'a>,
}

/// The numbers of an object's metadata. The time is in seconds since 1970-01-01T00:00:00Z.
#[derive(Clone, Copy)]
pub struct Numbers {
    pub version: u32,
    pub changeset: u32,
    pub time: u32,
    pub uid: u32,
}

/// What an object is, apart from its tags. A location is in units of 10^-7 degree.
#[derive(Clone, Copy)]
pub enum FlatWhat<'a> {
    Node { lon: i32, lat: i32 },
    Way { refs: &'a [u8] },
    Relation { members: &'a [u8] },
}
