//! Texts one by one, as lines spell user names, keys and values of tags, and roles (Osmium manual,
//! OPL File Format): `a b,c` is written `a%20%b%2c%c`.

ghost use Rattle.std.specs.Prelude.{◌≡◌, ℕ, List, ◌≤◌, ◌<◌, ◌++◌, length, vec_capacity};
ghost use Rattle.std.specs.Prelude.{IfErr, IfOk, MatchResult, OnErr, OnOk};
ghost use Rattle.osm_model.specs.Text.{IsText};
ghost use Rattle.osm_opl.specs.Escape.{SpellsText, TextStops};
ghost use Rattle.osm_opl.specs.Room.{LacksRoom, WantsOnlyIf};
ghost use Rattle.osm_opl.specs.Written.{escaped_text};
ghost use Rattle.osm_reading.specs.Refusal.{IsWant};

use crate::escapes;
use crate::lines::LineError;
use osm_model::memory::WantOfMemory;
use osm_model::text::Text;
use std::alloc::Global;

/// Appends a text as `write_line` writes it. On an error the vector is left as it was.
pub fn write_text(text: &Text, out: &mut Vec<u8>) -> Result<(), WantOfMemory>
    ensures ok { OnOk result (out.new.items ≡ out.old.items ++ escaped_text text.now) }
    ensures err { OnErr result (out.new.items ≡ out.old.items) }
    ensures room { vec_capacity out.old ≤ vec_capacity out.new }
    ensures refused { OnErr result (LacksRoom out.old (escaped_text text.now)) }
{
    let before = out.len();
    let result = escapes::write_text(text.as_str(), out);
    if result.is_err() {
        out.truncate(before);
    }
    result
}

/// Reads the text that all of the bytes spell, and resolves its escapes. Nothing is skipped; zero
/// bytes spell the empty text.
pub fn read_text(alloc: Global, bytes: &[u8]) -> Result<Text, LineError>
    ensures spelled { IfOk result (λ t. SpellsText bytes.now t) }
    ensures refused { IfErr result (TextStops bytes.now) }
    ensures only { (text : List ℕ) → IsText text → SpellsText bytes.now text
        → MatchResult result (λ t. t ≡ text) IsWant }
    ensures wants { WantsOnlyIf (0 < length bytes.now) result }
{
    escapes::read_text(alloc, bytes)
}

/// Tells the prover that `read_text` undoes `write_text`: bytes spell at most one text, and the
/// written bytes of a text spell that text. Does nothing at run time.
pub fn laws_of_texts()
    ensures one_text { (bytes a b : List ℕ) → SpellsText bytes a → SpellsText bytes b → a ≡ b }
    ensures written { (text : List ℕ) → IsText text → SpellsText (escaped_text text) text }
{}
