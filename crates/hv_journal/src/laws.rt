ghost use Rattle.std.specs.Prelude.{◌≡◌, ◌++◌, ◌+◌, List, ℕ, length};
ghost use Rattle.std.specs.List.{AllByRecursion};
ghost use Rattle.hv_history.specs.declared.entry.Entry.{Entry};
ghost use Rattle.hv_history.specs.Spelling.{entry_spelling, HasSpelling};
ghost use Rattle.hv_history.specs.Journal.{record_of, HasRecord, Leads, Reads, place_of, journal_of};

/// No entry's spelling begins another's, and no two entries are spelled alike. So what is written is read
/// again, whatever follows it. A record is four bytes longer than its body.
pub fn one_spelling()
    ensures body { (e d : Entry) (x y : List ℕ) → HasSpelling e → HasSpelling d
        → entry_spelling e ++ x ≡ entry_spelling d ++ y → (e ≡ d) × (x ≡ y) }
    ensures whole { (e d : Entry) (x y : List ℕ) → HasRecord e → HasRecord d
        → record_of e ++ x ≡ record_of d ++ y → (e ≡ d) × (x ≡ y) }
    ensures length { (e : Entry) → length (record_of e) ≡ 4 + length (entry_spelling e) }
{}

/// A journal reads to one book at most; a book as it is written is read again; and the gate behind a
/// book's records stands at its place.
pub fn one_book()
    ensures once { (book other : List Entry) (bytes : List ℕ) → Reads book bytes → Reads other bytes
        → book ≡ other }
    ensures written { (book : List Entry) → AllByRecursion HasRecord book
        → Reads book (journal_of book) }
    ensures place { (book : List Entry) (bytes rest : List ℕ) → Leads book bytes rest
        → length bytes ≡ place_of book + length rest }
{}
