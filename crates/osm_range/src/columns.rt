//! The columns that changes are counted by, and how they are asked for.

ghost use Rattle.std.specs.Prelude.{◌≡◌, ◌++◌, ◌↔◌, ℕ, List, Option, None, IfErr, IfOk, IfSome};
ghost use Rattle.std.specs.Prelude.{IsNone, IsTrue};
ghost use Rattle.osm_runs.specs.declared.fault.RunFault.TheVariants.{BadColumns};
ghost use Rattle.osm_range.specs.Columns.{AreDifferent, Differ, IsAtNoComma, IsNamed, IsNamedBy};
ghost use Rattle.osm_range.specs.Columns.{column_text, further_text};
ghost use Rattle.osm_range.specs.declared.columns.Column.{Column};
ghost use Rattle.osm_range.specs.declared.columns.Columns.{Columns};

use osm_runs::fault::RunFault;

/// A column that changes are counted by.
#[derive(Clone, Copy, PartialEq, Eq)]
pub enum Column {
    /// The day of the change's own time, in UTC.
    Day,
    /// The user who made the change: two columns, the number and the name.
    User,
    /// The changeset.
    Changeset,
    /// The kind of the object.
    Kind,
}

/// The columns of a tally, in their order: at least one, each at most once.
#[derive(Clone, Copy)]
pub struct Columns {
    pub(crate) first: Option<Column>,
    pub(crate) second: Option<Column>,
    pub(crate) third: Option<Column>,
    pub(crate) fourth: Option<Column>,
}

/// Reads the columns of a word: some of `day`, `user`, `changeset` and `kind`, in any order, each
/// at most once, with a comma between each two. `day,user` if there is no word. Anything else is
/// refused as `BadColumns`.
pub fn columns_of(word: Option<&str>) -> Result<Columns, RunFault>
    ensures named { IfOk result (IsNamed word.entry) }
    ensures refused { IfErr result (λ fault. (fault ≡ BadColumns)
        × ((columns : Columns) → IsNamed word.entry columns → ⊥)) }
{
    let Some(word) = word else {
        return Ok(Columns {
            first: Some(Column::Day),
            second: Some(Column::User),
            third: None,
            fourth: None,
        });
    };
    match columns_read(word.as_bytes()) {
        Some(columns) => Ok(columns),
        None => Err(RunFault::BadColumns),
    }
}

fn columns_read(word: &[u8]) -> Option<Columns>
    ensures found { IfSome result (IsNamedBy word.now) }
    ensures only { IsNone result → (columns : Columns) → IsNamedBy word.now columns → ⊥ }
{
    let (first, rest) = next_column(word)?;
    let (second, rest) = further_column(rest)?;
    let (third, rest) = further_column(rest)?;
    let (fourth, rest) = further_column(rest)?;
    let columns = Columns {
        first: Some(first),
        second,
        third,
        fourth,
    };
    if !rest.is_empty() || !are_different(columns) {
        return None;
    }
    Some(columns)
}

// The column that the word begins with, and the rest of the word.
fn next_column(word: &[u8]) -> Option<(Column, &[u8])>
    ensures found { IfSome result (λ r. word.now ≡ column_text r.0 ++ r.1.now) }
    ensures only { IsNone result → (column : Column) (rest : List ℕ)
        → word.now ≡ column_text column ++ rest → ⊥ }
{
    if let Some(rest) = word.strip_prefix(b"day") {
        return Some((Column::Day, rest));
    }
    if let Some(rest) = word.strip_prefix(b"user") {
        return Some((Column::User, rest));
    }
    if let Some(rest) = word.strip_prefix(b"changeset") {
        return Some((Column::Changeset, rest));
    }
    let rest = word.strip_prefix(b"kind")?;
    Some((Column::Kind, rest))
}

// The column after a comma, none if there is no comma, and the rest of the word.
fn further_column(word: &[u8]) -> Option<(Option<Column>, &[u8])>
    ensures found { IfSome result (λ r. word.now ≡ further_text r.0 ++ r.1.now) }
    ensures none { IfSome result (λ r. r.0 ≡ None → IsAtNoComma r.1.now) }
    ensures only { IsNone result → (further : Option Column) (rest : List ℕ)
        → (further ≡ None → IsAtNoComma rest) → word.now ≡ further_text further ++ rest → ⊥ }
{
    let Some(word) = word.strip_prefix(b",") else {
        return Some((None, word));
    };
    let (column, rest) = next_column(word)?;
    Some((Some(column), rest))
}

fn are_different(columns: Columns) -> bool
    ensures { IsTrue result ↔ AreDifferent columns }
{
    differ(columns.first, columns.second)
        && differ(columns.first, columns.third)
        && differ(columns.first, columns.fourth)
        && differ(columns.second, columns.third)
        && differ(columns.second, columns.fourth)
        && differ(columns.third, columns.fourth)
}

fn differ(one: Option<Column>, other: Option<Column>) -> bool
    ensures { IsTrue result ↔ Differ one other }
{
    match (one, other) {
        (Some(one), Some(other)) => one != other,
        _ => true,
    }
}
