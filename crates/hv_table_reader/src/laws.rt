//! What is read of a house whose files stand.

ghost use Rattle.std.specs.Prelude.{◌≡◌, ℕ, Bool, List, take};
ghost use Rattle.hv_shelf.specs.Disk.{Tree};
ghost use Rattle.hv_logic.specs.declared.effect.Found.{Found};
ghost use Rattle.hv_history.specs.hv_meaning.specs.Needs.{rows_wanted};
ghost use Rattle.hv_history.specs.declared.entry.Entry.{Entry};
ghost use Rattle.hv_history.specs.declared.state.Table.{Table};
ghost use Rattle.hv_history.specs.State.{content_of, state_of};
ghost use Rattle.hv_history.specs.Legal.{profile, IsLegal};
ghost use Rattle.hv_table_rows.specs.Reading.{AreRows, IsSpoiled as IsSpoiledOf};
ghost use Rattle.hv_acts.specs.hv_telling.specs.hv_house.specs.hv_law_read.specs.Reading.{ReadsAt};
ghost use Rattle.hv_law_dues.specs.hv_counts.specs.Counts.{dues_in};
ghost use Rattle.hv_acts.specs.hv_telling.specs.hv_house.specs.Seeing.{ids_in};
ghost use Rattle.hv_table_reader.specs.Counting.{IsAmissOf};

/// What an open transaction reads of a live table's partitions that are wanted under the list of its snapshot, where the book's files stand, is
/// what stood in them there, and no file of the table is damaged.
pub fn seen_is_content()
    ensures rows { (book : List Entry) (txn place : ℕ) (table : Table) (files : Tree) (wants : List ℕ → Bool)
        (rows : List Found) → ReadsAt book txn place table files
        → AreRows wants table.info (ids_in (state_of (take place book)) table.info.table.0) files rows
        → rows ≡ rows_wanted wants (content_of table.writes) }
    ensures none { (book : List Entry) (txn place : ℕ) (table : Table) (files : Tree)
        → ReadsAt book txn place table files
        → IsSpoiledOf table.info (ids_in (state_of (take place book)) table.info.table.0) files → ⊥ }
{}

/// And of a legal book it isn't amiss: each of its files is there, and those of the partitions that are wanted have together as many records
/// as the commits before the place say, where that is asked.
pub fn none_amiss()
    ensures law { (book : List Entry) (txn place : ℕ) (table : Table) (files : Tree) (wants : List ℕ → Bool)
        → IsLegal profile book → ReadsAt book txn place table files
        → IsAmissOf wants table.info (ids_in (state_of (take place book)) table.info.table.0) files
        (dues_in (state_of (take place book)) table.info.table.0) → ⊥ }
{}
