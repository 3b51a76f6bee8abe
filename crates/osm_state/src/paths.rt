//! Paths of the files of a sequence.

ghost use Rattle.std.specs.Prelude.{◌≡◌, ℕ, ◌+◌, ◌<◌, ◌≤◌, Some, IfSome, IfOk};
ghost use Rattle.std.specs.Prelude.{string_bytes};
ghost use Rattle.osm_model.specs.Limits.{max_sequence};
ghost use Rattle.osm_state.specs.Path.{path_text, suffix_text, three_digits, folders_text};

use osm_model::memory::WantOfMemory;
use std::alloc::Global;

/// The end of a path, which says what the file holds: changes as o5c or as OPL, or a state.
#[derive(Clone, Copy, Debug, PartialEq, Eq)]
pub enum Suffix {
    /// `.o5c`
    O5c,
    /// `.opl`
    Opl,
    /// `.state.txt`
    State,
}

impl Suffix {
    // The end of the path.
    fn text(self) -> &'static str
        ensures { result.now ≡ suffix_text self }
    {
        match self {
            Suffix::O5c => ".o5c",
            Suffix::Opl => ".opl",
            Suffix::State => ".state.txt",
        }
    }
}

/// The path of a file of a sequence: `AAA/BBB/CCC`, the sequence number in nine digits with leading
/// zeros, and the suffix (OSM wiki, Planet.osm/diffs).
pub fn path(alloc: Global, number: u32, suffix: Suffix) -> Result<String, WantOfMemory>
    requires { number ≤ max_sequence }
    ensures { IfOk result (λ path. string_bytes path ≡ path_text number suffix) }
{
    let (millions, thousands, ones) = (number / 1_000_000, number / 1000 % 1000, number % 1000);
    let end = suffix.text();
    Ok(format!(in alloc; "{millions:03}/{thousands:03}/{ones:03}{end}")?)
}

/// Reads the number and the suffix of a path that `path` gives; None for any other text. Takes no
/// memory.
pub fn path_number(text: &str) -> Option<(u32, Suffix)>
    ensures found { IfSome result (λ r. (r.0 ≤ max_sequence) × (text.now ≡ path_text r.0 r.1)) }
    ensures only { (n : ℕ) (s : Suffix) →
        n ≤ max_sequence → text.now ≡ path_text n s → result ≡ Some (n, s) }
{
    let (folders, end) = text.as_bytes().split_first_chunk::<11>()?;
    Some((number_of(folders)?, suffix_of(end)?))
}

// The number in `AAA/BBB/CCC`.
fn number_of(folders: &[u8; 11]) -> Option<u32>
    ensures found { IfSome result (λ n. (n ≤ max_sequence) × (folders.now ≡ folders_text n)) }
    ensures only { (n : ℕ) → n ≤ max_sequence → folders.now ≡ folders_text n → result ≡ Some n }
{
    let [a, b, c, b'/', d, e, f, b'/', g, h, i] = folders else {
        return None;
    };
    let millions = three([*a, *b, *c])?;
    let thousands = three([*d, *e, *f])?;
    let ones = three([*g, *h, *i])?;
    Some(1_000_000 * millions + 1000 * thousands + ones)
}

// The value of three digits.
fn three(digits: [u8; 3]) -> Option<u32>
    ensures found { IfSome result (λ n. (n < 1000) × (digits ≡ three_digits n)) }
    ensures only { (n : ℕ) → n < 1000 → digits ≡ three_digits n → result ≡ Some n }
{
    let [hundreds, tens, ones] = digits;
    Some(100 * digit(hundreds)? + 10 * digit(tens)? + digit(ones)?)
}

// The value of one digit.
fn digit(byte: u8) -> Option<u32>
    ensures found { IfSome result (λ d. (d < 10) × (byte ≡ 48 + d)) }
    ensures only { (d : ℕ) → d < 10 → byte ≡ 48 + d → result ≡ Some d }
{
    if byte.is_ascii_digit() {
        Some((byte - b'0') as u32)
    } else {
        None
    }
}

// The suffix with this text.
fn suffix_of(end: &[u8]) -> Option<Suffix>
    ensures found { IfSome result (λ s. end.now ≡ suffix_text s) }
    ensures only { (s : Suffix) → end.now ≡ suffix_text s → result ≡ Some s }
{
    match end {
        b".o5c" => Some(Suffix::O5c),
        b".opl" => Some(Suffix::Opl),
        b".state.txt" => Some(Suffix::State),
        _ => None,
    }
}
