ghost use Rattle.std.specs.Prelude.{◌≡◌, ◌<◌, ◌^◌, ℕ, List, true, false};
ghost use Rattle.std.specs.List.{list_all};
ghost use Rattle.hv_paths.specs.Names.{piece_name, dir_name, table_name, is_table, bucket_name, folders_of, has_slash, is_name};

/// Two pieces, two directories and two files have two names, and no piece has a directory's name.
pub fn names_differ()
    ensures pieces { (piece other : List ℕ) → piece_name piece ≡ piece_name other → piece ≡ other }
    ensures dirs { (dir other : List ℕ) → dir_name dir ≡ dir_name other → dir ≡ other }
    ensures apart { (piece dir : List ℕ) → ¬ (piece_name piece ≡ dir_name dir) }
    ensures files { (bucket other : ℕ) → bucket < 2 ^ 32 → other < 2 ^ 32
        → bucket_name bucket ≡ bucket_name other → bucket ≡ other }
{}

/// Two directories have two paths: no two differ in table, partition or name and share one.
pub fn folders_differ()
    ensures law { (table other : ℕ) (partition text dir name : List ℕ)
        → table < 2 ^ 64 → other < 2 ^ 64
        → folders_of table partition dir ≡ folders_of other text name
        → (table ≡ other) × (partition ≡ text) × (dir ≡ name) }
{}

/// No name leads out of its folder: none is empty, begins with a dot or has a slash.
pub fn names_are_safe()
    ensures folders { (table : ℕ) (partition dir : List ℕ) → table < 2 ^ 64
        → has_slash dir ≡ false → list_all is_name (folders_of table partition dir) ≡ true }
    ensures files { (bucket : ℕ) → bucket < 2 ^ 32 → is_name (bucket_name bucket) ≡ true }
{}

/// Each table's folder has a name that is known for one.
pub fn tables_are_known()
    ensures law { (table : ℕ) → table < 2 ^ 64 → is_table (table_name table) ≡ true }
{}
