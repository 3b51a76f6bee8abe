//! Where a line of a save lies beside what is looked for.

ghost use Rattle.std.specs.Prelude.{◌≡◌, ◌↔◌, ◌≤◌, ◌++◌, ℕ, List, IsTrue, Some, length};
ghost use Rattle.osm_model.specs.Change.{ChangeValue};
ghost use Rattle.osm_mirror.specs.Mirror.{IsObject};
ghost use Rattle.osm_opl.specs.Written.{line_text};
ghost use Rattle.osm_asking.specs.Steps.Passing.{IsOther, IsSide, IsStarted};
ghost use Rattle.osm_asking.specs.Steps.Sides.{side_in};

use crate::words::{first_word, key_of};
use osm_model::kind::Key;
use osm_opl::lines::line_key;
use std::cmp::Ordering;

/// What is looked for in a save.
#[derive(Clone, Copy)]
pub enum Wanted {
    /// The line of the object with that key.
    Object(Key),
    /// The first line after those of the objects, which has the number of users.
    Counts,
}

/// Where a line lies: less if it comes before what is wanted, equal if it is that, greater if it
/// comes after. None if it begins like the line of an object and has no key.
pub(crate) fn side_of(line: &[u8], wanted: Wanted) -> Option<Ordering>
    ensures { IsSide wanted line.now result }
{
    if begins_object(line) {
        return side_of_key(object_key(line), wanted);
    }
    Some(Ordering::Greater)
}

/// Where a line lies of which the first bytes are known: 32 of them have the key of an object, and
/// the blank after it.
pub(crate) fn side_of_start(start: &[u8], wanted: Wanted) -> Option<Ordering>
    requires { 32 ≤ length start.now }
    ensures { IsStarted wanted start.now result }
{
    if begins_object(start) {
        return side_of_key(start_key(start), wanted);
    }
    Some(Ordering::Greater)
}

// Whether a line begins with the letter of a kind.
fn begins_object(line: &[u8]) -> bool
    ensures { IsTrue result ↔ ¬ (IsOther line.now) }
{
    match line.first() {
        Some(letter) => matches!(*letter, b'n' | b'w' | b'r'),
        None => false,
    }
}

// The key of the line of an object.
fn object_key(line: &[u8]) -> Option<Key>
    ensures { (c : ChangeValue) → IsObject c → line.now ≡ line_text c → result ≡ Some c.key }
{
    line_key(line)
}

// The key of the object whose line begins so.
fn start_key(start: &[u8]) -> Option<Key>
    requires { 32 ≤ length start.now }
    ensures { (c : ChangeValue) (more : List ℕ) → IsObject c → start.now ++ more ≡ line_text c
        → result ≡ Some c.key }
{
    match first_word(start).split_first() {
        Some((letter, digits)) => key_of(*letter, digits),
        None => None,
    }
}

// Where the line of an object with that key lies.
fn side_of_key(key: Option<Key>, wanted: Wanted) -> Option<Ordering>
    ensures { result ≡ side_in wanted key }
{
    match wanted {
        Wanted::Counts => Some(Ordering::Less),
        Wanted::Object(wanted) => Some(key?.cmp(&wanted)),
    }
}
