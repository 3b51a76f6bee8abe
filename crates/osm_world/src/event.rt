//! What may happen in a world, and what it replies.

use osm_follow::view::View;
use osm_model::change::Change;

/// The form in which a sequence is delivered.
#[derive(Clone, Copy, Debug, PartialEq, Eq)]
pub enum Form {
    /// Lines of text (Osmium manual, OPL File Format).
    Opl,
    /// Binary datasets (OSM wiki, O5m).
    O5c,
}

/// What may happen in a world.
#[derive(Debug, Drop)]
pub enum Event {
    /// The publisher takes an edit.
    Edit(Change),
    /// The publisher publishes the pending edits as the next sequence, at the given time in seconds
    /// since 1970-01-01T00:00:00Z.
    Close(u32),
    /// The archived files of a sequence are delivered to the follower: its state text, and its
    /// changes in the given form.
    Deliver { number: u32, form: Form },
    /// The follower is asked for a view.
    Show,
    /// The follower is saved; its save text replaces the last one.
    Save,
    /// The follower restarts from the last save text, or from nothing if there is none.
    Restart,
    /// The follower begins anew at the given number. Its objects are those that its filter keeps of
    /// what the published sequences up to that number leave. The last save text stays.
    Begin(u32),
}

/// What a world answers to an event.
#[derive(Debug, Drop)]
pub enum Reply {
    /// The edit was added after the pending edits.
    Edited,
    /// The batch has 100,000 changes; the edit is dropped.
    BatchFull,
    /// Memory was refused. Nothing has changed, except that an edit is dropped, and that a follower
    /// that was to restart is now broken.
    WantOfMemory,
    /// The pending edits were published as the sequence with that number.
    Closed(u32),
    /// The last sequence, 999,999,999, is already published.
    SequenceFull,
    /// The time is before that of the last sequence, or is 0.
    TimeBack,
    /// The o5c file or the OPL file of the pending edits would have more than 64 MiB.
    TooLarge,
    /// No sequence with that number was published.
    NotPublished,
    /// The follower is broken: memory was refused during an application or a restart.
    Broken,
    /// The number was applied before.
    Old,
    /// The number is held already.
    Again,
    /// The number is more than 64 above the follower's.
    TooEarly,
    /// The sequence is held until the sequences before it are applied.
    Held,
    /// The sequences from `low` to `high` were applied.
    Applied { low: u32, high: u32 },
    /// Memory was refused part-way through an application: the follower is now broken.
    Broke,
    /// A copy of all that the follower holds.
    Shown(View),
    /// The follower was saved at the given number.
    Saved(u32),
    /// The follower has restarted at the given number, and holds nothing.
    Restarted(u32),
    /// The follower has begun at the given number, after which it counts edits, and holds nothing.
    Begun(u32),
}
