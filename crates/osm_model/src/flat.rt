//! Nodes and tags whose texts are borrowed from the bytes that were read.

ghost use Rattle.std.specs.Prelude.{◌≡◌};
ghost use Rattle.osm_model.specs.Lists.{IsTag};
ghost use Rattle.osm_model.specs.Text.{IsText};

use std::marker::Model;

/// A node without its tags. The location is in units of 10^-7 degree.
#[derive(Clone, Copy)]
pub struct FlatNode<'a> {
    pub id: i64,
    pub meta: FlatMeta<'a>,
    pub lon: i32,
    pub lat: i32,
}

/// The metadata of a change. The time is in seconds since 1970-01-01T00:00:00Z.
#[derive(Clone, Copy)]
pub struct FlatMeta<'a> {
    pub version: u32,
    pub time: u32,
    pub changeset: u32,
    pub uid: u32,
    pub user: &'a str,
}

/// A tag: its key and its value.
#[derive(Drop)]
pub struct FlatTag<'a> {
    key: &'a str,
    value: &'a str,
}

impl<'a> Model for FlatTag<'a> {
    ghost use Rattle.osm_model.specs.Lists.{IsTag};
    ghost use Rattle.osm_model.specs.declared.lists.Tag.{Tag};

    ghost Value = { Tag };

    ghost view = { λ a. record { key = a.key.now; value = a.value.now } };

    ghost invariant = { λ a. IsTag (record { key = a.key.now; value = a.value.now }) };
}

impl<'a> FlatTag<'a> {
    /// The tag of a key and a value that the caller knows to be texts.
    pub fn within_limits(key: &'a str, value: &'a str) -> FlatTag<'a>
        requires key { IsText key.now }
        requires value { IsText value.now }
        ensures { result ≡ record { key = key.now; value = value.now } }
    {
        FlatTag { key, value }
    }

    pub fn key(&self) -> &'a str
        ensures { result.now ≡ self.now.key }
    {
        self.key
    }

    pub fn value(&self) -> &'a str
        ensures { result.now ≡ self.now.value }
    {
        self.value
    }
}
