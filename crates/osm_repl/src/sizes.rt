//! The size up to which `follow` rewrites a save, and the most bytes of a journal.

ghost use Rattle.std.specs.Prelude.{◌≡◌, ◌≤◌, IfErr, IfOk, IfSome, None};
ghost use Rattle.osm_model.specs.Limits.{max_file};
ghost use Rattle.osm_round.specs.declared.kept.Sizes.{Sizes};
ghost use Rattle.osm_repl.specs.Sizes.{IsSizes, RefusesSizes, SpellsSizes};

use crate::refusal::Refusal;
use osm_reading::pieces::cut;
use osm_reading::sequence::sequence_read;
use osm_round::kept::Sizes;

/// The default sizes. A save of at most 8 MiB is rewritten by each run that takes a sequence. A
/// larger one is rewritten once its journal would have more than 4 MiB.
pub const USUAL_SIZES: Sizes = Sizes {
    small: 8_388_608,
    most: 4_194_304,
};

// The most bytes of a journal that can be read again.
const MAX_JOURNAL: u32 = 67_108_864;

/// Reads the sizes from a word `SMALL:MOST`, two numbers of bytes with 1 to 9 digits, or gives the
/// default sizes if there is no word. MOST is at most 64 MiB, since a longer journal couldn't be
/// read again.
pub fn check_sizes(word: Option<&str>) -> Result<Sizes, Refusal>
    ensures sizes { IfOk result (IsSizes word.entry) }
    ensures most { IfOk result (λ sizes. sizes.most ≤ max_file) }
    ensures refused { IfErr result (RefusesSizes word.entry) }
{
    let Some(word) = word else {
        return Ok(USUAL_SIZES);
    };
    match sizes_read(word.as_bytes()) {
        Some(sizes) => Ok(sizes),
        None => Err(Refusal::BadSizes),
    }
}

fn sizes_read(text: &[u8]) -> Option<Sizes>
    ensures found { IfSome result (SpellsSizes text.now) }
    ensures none { result ≡ None → (sizes : Sizes) → SpellsSizes text.now sizes → ⊥ }
{
    let (small, Some(most)) = cut(text, b':') else {
        return None;
    };
    match (sequence_read(small), sequence_read(most)) {
        (Some(small), Some(most)) if most <= MAX_JOURNAL => Some(Sizes {
            small: small as u64,
            most: most as u64,
        }),
        _ => None,
    }
}
