//! The lock that a run takes on what it writes.

ghost use Rattle.std.specs.Prelude.{◌≡◌};
ghost use Rattle.osm_words.specs.Locks.{lock_of};

use crate::orders::{Options, Order};

/// What only one run at a time may write.
#[derive(Clone, Copy, Debug, PartialEq, Eq)]
pub enum Lock<'a> {
    /// The folder of sequences.
    Folder(&'a str),
    /// The save, and its journal.
    Save(&'a str),
}

/// Gives the lock that a run takes: on the folder for `publish`, on the save and its journal for
/// `begin` and `follow`. Other commands, and a run with `--no-lock`, take none.
pub fn lock_of<'a>(order: Order<'a>, options: Options) -> Option<Lock<'a>>
    ensures { result ≡ lock_of order.entry options }
{
    if options.no_lock {
        return None;
    }
    match order {
        Order::Publish { dir, .. } | Order::PublishAs { dir, .. } => Some(Lock::Folder(dir)),
        Order::Begin { save, .. } | Order::Follow { save, .. } => Some(Lock::Save(save)),
        _ => None,
    }
}
