//! The versions of the save text.

/// A version of the save text, which its first line names.
#[derive(Clone, Copy, Debug, PartialEq, Eq)]
pub enum Version {
    /// Has no base, so the base is 0, and has a bound on the number of objects. This version is
    /// read, but no longer written.
    One,
    /// Has no filter, so everything is kept. This version is read, but no longer written.
    Two,
    /// The version that is written.
    Three,
}
