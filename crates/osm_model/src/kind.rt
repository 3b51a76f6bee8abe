//! Kinds and keys of objects.

ghost use Rattle.std.specs.Prelude.{◌≡◌};
ghost use Rattle.std.proofs.Common.{rules};
ghost use Rattle.std.specs.Cmp.{partial_order_from_own_ties};
ghost use Rattle.std.specs.Cmp.Rules.{comparing};
ghost use Rattle.std.specs.Ordering.{as_partial_cmp};
ghost use Rattle.osm_model.specs.KeyOrder.{key_cmp, kind_rank};

use std::cmp::Ordering;

/// The kind of an object, in the order in which change files list them.
#[derive(Clone, Copy, Debug, PartialEq, Eq, PartialOrd, Ord)]
pub enum Kind {
    Node,
    Way,
    Relation,
}

impl Kind {
    // Nodes come before ways, and ways before relations.
    fn rank(self) -> u8
        ensures { result ≡ kind_rank self }
    {
        match self {
            Kind::Node => 0,
            Kind::Way => 1,
            Kind::Relation => 2,
        }
    }
}

/// Identifies an object by its kind and id. Keys are ordered by kind, then by id.
#[derive(Clone, Copy, Debug, PartialEq, Eq)]
pub struct Key {
    pub kind: Kind,
    pub id: i64,
}

impl PartialOrd for Key {
    ghost partial_cmp = { as_partial_cmp key_cmp };

    ghost laws = { partial_order_from_own_ties (Prim.search (comparing, rules))
        (Prim.search (comparing, rules)) };

    fn partial_cmp(&self, other: &Key) -> Option<Ordering> {
        Some(self.cmp(other))
    }
}

impl Ord for Key {
    ghost cmp = { key_cmp };

    ghost total = { Prim.search (comparing, rules) };

    ghost matches_partial_cmp = { Prim.search (comparing, rules) };

    ghost matches_eq = { Prim.search (comparing, rules) };

    fn cmp(&self, other: &Key) -> Ordering {
        self.kind
            .rank()
            .cmp(&other.kind.rank())
            .then(self.id.cmp(&other.id))
    }
}
