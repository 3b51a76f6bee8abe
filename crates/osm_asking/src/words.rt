//! The words that name objects.

ghost use Rattle.std.specs.Prelude.{◌≡◌, ◌∷◌, ℤ, FitsSigned, IfSome, Some, option_map, true};
ghost use Rattle.std.specs.Prelude.{slice_index};
ghost use Rattle.std.specs.Fmt.{signed_decimal};
ghost use Rattle.std.specs.Int.{w64};
ghost use Rattle.osm_model.specs.declared.kind.Key.{Key};
ghost use Rattle.osm_opl.specs.Reading.{kind_at};
ghost use Rattle.osm_opl.specs.Written.{key_text};
ghost use Rattle.osm_asking.specs.Fingerprint.{first_word};
ghost use Rattle.osm_asking.specs.Steps.Words.{is_plain};

use osm_model::kind::{Key, Kind};
use osm_reading::pieces::cut;

/// Reads the word that names an object, as OPL writes its key: `n123`, `w-5`, `r7`. None if it
/// isn't written so, or 64 bits don't hold the id.
pub fn read_object_word(word: &str) -> Option<Key>
    ensures spelled { IfSome result (λ key. word.now ≡ key_text key) }
    ensures only { (key : Key) → FitsSigned w64 key.id → word.now ≡ key_text key
        → result ≡ Some key }
{
    match word.as_bytes().split_first() {
        Some((letter, digits)) => key_of(*letter, digits),
        None => None,
    }
}

/// The bytes before the first blank, or all if there is none.
pub(crate) fn first_word(bytes: &[u8]) -> &[u8]
    ensures { result.now ≡ first_word bytes.now }
{
    let (word, _rest) = cut(bytes, b' ');
    word
}

/// The key with the letter of its kind and the digits of its id.
pub(crate) fn key_of(letter: u8, digits: &[u8]) -> Option<Key>
    ensures spelled { IfSome result (λ key. letter ∷ digits.now ≡ key_text key) }
    ensures only { (key : Key) → FitsSigned w64 key.id → letter ∷ digits.now ≡ key_text key
        → result ≡ Some key }
{
    match kind_of(letter) {
        Some(kind) => key_with(kind, id_of(digits)),
        None => None,
    }
}

fn key_with(kind: Kind, id: Option<i64>) -> Option<Key>
    ensures { result ≡ option_map (λ id. record { kind = kind; id = id }) id }
{
    match id {
        Some(id) => Some(Key { kind, id }),
        None => None,
    }
}

fn kind_of(letter: u8) -> Option<Kind>
    ensures { result ≡ kind_at letter }
{
    match letter {
        b'n' => Some(Kind::Node),
        b'w' => Some(Kind::Way),
        b'r' => Some(Kind::Relation),
        _ => None,
    }
}

// A number with a `-` if it is below 0, and without leading zeros.
fn id_of(digits: &[u8]) -> Option<i64>
    ensures spelled { IfSome result (λ id. digits.now ≡ signed_decimal id) }
    ensures only { (id : ℤ) → FitsSigned w64 id → digits.now ≡ signed_decimal id
        → result ≡ Some id }
{
    if !is_plain(digits) {
        return None;
    }
    parsed(digits)
}

// Whether there is no `+`, and no 0 before another digit or after a `-`.
fn is_plain(digits: &[u8]) -> bool
    ensures { result ≡ is_plain digits.now }
{
    let first = byte_at(digits, 0);
    first != b'+'
        && !(first == b'0' && digits.len() > 1)
        && !(first == b'-' && byte_at(digits, 1) == b'0')
}

// The byte at an index; 0 if there are fewer.
fn byte_at(digits: &[u8], at: usize) -> u8
    ensures { result ≡ slice_index digits.now at }
{
    match digits.get(at) {
        Some(byte) => *byte,
        None => 0,
    }
}

fn parsed(digits: &[u8]) -> Option<i64>
    requires { is_plain digits.now ≡ true }
    ensures spelled { IfSome result (λ id. digits.now ≡ signed_decimal id) }
    ensures only { (id : ℤ) → FitsSigned w64 id → digits.now ≡ signed_decimal id
        → result ≡ Some id }
{
    match str::from_utf8(digits) {
        Ok(text) => number_in(text),
        Err(_) => None,
    }
}

fn number_in(text: &str) -> Option<i64>
    requires { is_plain text.now ≡ true }
    ensures spelled { IfSome result (λ id. text.now ≡ signed_decimal id) }
    ensures only { (id : ℤ) → FitsSigned w64 id → text.now ≡ signed_decimal id
        → result ≡ Some id }
{
    text.parse::<i64>().ok()
}
