//! Laws of saves with journals, which hold whatever the code does.

ghost use Rattle.osm_kept.specs.Laws.{BadKeepsNothing, EmptiedIsKept, EmptyIsNone, FirstIsAdded};
ghost use Rattle.osm_kept.specs.Laws.{JournalIsApplied, MergedIsKept, MoreIsAdded, OneIsKept};
ghost use Rattle.osm_kept.specs.Laws.{EmptyIsNoOther, MergedIsOlder, OlderIsNoOther};
ghost use Rattle.osm_kept.specs.Laws.{OlderSaysNothing, OlderStays, OneIsAt, OneIsOther};
ghost use Rattle.osm_kept.specs.Laws.{OpensAsOther, OpensBad, OwnIsNoOther, SavedIsAt};
ghost use Rattle.osm_kept.specs.Laws.{SavedIsKept};
ghost use Rattle.osm_kept.specs.Names.{JournalHasOwnName};

/// States which mirror a save and its journal keep together, and which journals of another save are
/// refused beside it. Does nothing at run time.
///
/// The two files keep at most one mirror, and none if the journal is bad. An empty journal keeps
/// the same as no journal. A journal that says nothing leaves what the save saves, even once the
/// journal is emptied. The batches of a journal are applied to what is saved; one more batch, or a
/// first one, is applied to what was kept. Once what is kept has been saved in the save's place,
/// alone or with later numbers, the old journal says nothing. A journal never has the name of its
/// save.
///
/// A save has one number, and a journal of another save ends at one number. A journal that belongs
/// to the save, or is empty, is never one that ends above the save. A journal of another save that
/// doesn't end above the save says nothing, and doesn't end above any later save either.
pub fn laws_of_kept()
    ensures one_kept { OneIsKept }
    ensures nothing { BadKeepsNothing }
    ensures empty { EmptyIsNone }
    ensures saved { SavedIsKept }
    ensures written { JournalIsApplied }
    ensures appended { MoreIsAdded }
    ensures begun { FirstIsAdded }
    ensures merged { MergedIsKept }
    ensures emptied { EmptiedIsKept }
    ensures named { JournalHasOwnName }
    ensures one_at { OneIsAt }
    ensures saved_at { SavedIsAt }
    ensures one_other { OneIsOther }
    ensures own { OwnIsNoOther }
    ensures older { OlderIsNoOther }
    ensures no_bytes { EmptyIsNoOther }
    ensures silent { OlderSaysNothing }
    ensures stays { OlderStays }
    ensures merged_older { MergedIsOlder }
    ensures opens { OpensAsOther }
    ensures opens_bad { OpensBad }
{}
