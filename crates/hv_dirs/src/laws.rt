ghost use Rattle.std.specs.Prelude.{◌≡◌, ◌<◌, ℕ};
ghost use Rattle.hv_dirs.specs.declared.names.DirName.{DirName};
ghost use Rattle.hv_dirs.specs.Names.{own_name, write_end, IsName, text_of};

/// Two write ids have different own deltas.
pub fn own_names_differ()
    ensures law { (write other statement last : ℕ) → write < write_end → other < write_end
        → own_name write statement ≡ own_name other last → write ≡ other }
{}

/// Two names have two texts.
pub fn texts_differ()
    ensures law { (name other : DirName) → IsName name → IsName other
        → text_of name ≡ text_of other → name ≡ other }
{}
