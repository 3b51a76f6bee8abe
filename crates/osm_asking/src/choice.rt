//! Which counts of edits are asked for, and how they are written.

/// What edits are counted by.
#[derive(Clone, Copy, Drop)]
pub enum By {
    /// The id of their user.
    User,
    /// Their changeset.
    Changeset,
}

/// Which counts are given.
#[derive(Clone, Copy, Drop)]
pub enum Choice<'a> {
    /// All, by rising ids.
    All,
    /// So many of the largest ones, by falling counts; equal ones by rising ids.
    Top(u64),
    /// Those of these ids, in this order: 0 for one without edits.
    Ids(&'a [u32]),
}

/// How counts are written.
#[derive(Clone, Copy, Drop)]
pub enum Form {
    /// A line `ID COUNT` each.
    Lines,
    /// A head line, `user,count` or `changeset,count`, and a line `ID,COUNT` each.
    Csv,
    /// One line: `{"by":"user","counts":[{"id":7,"count":3}]}`.
    Json,
}
