ghost use Rattle.std.specs.Prelude.{◌≡◌, ◌++◌, [], Bool, List, ℕ};
ghost use Rattle.hv_rowfile.specs.declared.record.Rec.{Rec};
ghost use Rattle.hv_rowfile.specs.Layout.{file_spelling, IsFile};

/// No file begins another, and no two files are spelled alike: a front that is a whole file is the file.
pub fn one_spelling()
    ensures { (d e : Bool) (b c : ℕ) (recs others : List Rec) (rest : List ℕ)
        → IsFile d b recs → IsFile e c others
        → file_spelling d b recs ++ rest ≡ file_spelling e c others
        → (rest ≡ []) × (d ≡ e) × (b ≡ c) × (recs ≡ others) }
{}
