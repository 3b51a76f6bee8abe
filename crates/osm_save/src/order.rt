//! The order of what is read: keys and numbers must rise.

ghost use Rattle.std.specs.Prelude.{◌≡◌};
ghost use Rattle.std.specs.Ordering.{nat_cmp};
ghost use Rattle.osm_model.specs.KeyOrder.{key_cmp};
ghost use Rattle.osm_model.specs.Text.{bytes_cmp};
ghost use Rattle.osm_save.specs.Reading.{is_above, last_of};

use osm_model::kind::Key;
use osm_model::text::Text;

/// Whether a key is above the last key, if there is one.
pub fn is_key_above(last: Option<Key>, key: Key) -> bool
    ensures { result ≡ is_above key_cmp last key }
{
    match last {
        None => true,
        Some(last) => last.cmp(&key).is_lt(),
    }
}

/// Whether a number is above the last number, if there is one.
pub fn is_number_above(last: Option<u32>, number: u32) -> bool
    ensures { result ≡ is_above nat_cmp last number }
{
    match last {
        None => true,
        Some(last) => last.cmp(&number).is_lt(),
    }
}

/// Whether a text is above the last of the texts before it.
pub fn is_text_above(before: &[Text], text: &Text) -> bool
    ensures { result ≡ is_above bytes_cmp (last_of before.now) text.now }
{
    match before.last() {
        None => true,
        Some(last) => last.cmp(text).is_lt(),
    }
}
