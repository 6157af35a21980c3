ghost use Rattle.std.specs.Prelude.{◌≡◌, List, [], ◌∷◌, ◌++◌, length, map};
ghost use Rattle.hv_book.specs.hv_history.specs.declared.entry.Entry.{Entry};
ghost use Rattle.hv_trail.specs.declared.trail.Mark.{Mark};
ghost use Rattle.hv_trail.specs.declared.trail.TrailItem.{TrailItem};
ghost use Rattle.hv_trail.specs.declared.trail.TrailItem.TheVariants as item;
ghost use Rattle.hv_trail.specs.Trail.{book_of, marks_of, woven_from};

/// A trail is its book and its marks, each mark with the number of entries before it: so a house may keep the two apart, and
/// each entry once. The trail of a store that was just opened is its book.
pub fn book_and_marks_are_the_trail()
    ensures whole { (trail : List TrailItem) → woven_from 0 (book_of trail) (marks_of trail) ≡ trail }
    ensures opened { (book : List Entry) → book_of (map item.Noted book) ≡ book }
    ensures opened_marks { (book : List Entry) → marks_of (map item.Noted book) ≡ [] }
{}

/// An entry stands once in the book and makes no mark; a mark stands once among the marks and makes no entry.
pub fn items_count_once()
    ensures entry { (trail : List TrailItem) (event : Entry) → book_of (trail ++ item.Noted event ∷ []) ≡ book_of trail ++ event ∷ [] }
    ensures entry_marks { (trail : List TrailItem) (event : Entry) → marks_of (trail ++ item.Noted event ∷ []) ≡ marks_of trail }
    ensures mark { (trail : List TrailItem) (mark : Mark) →
        marks_of (trail ++ item.Marked mark ∷ []) ≡ marks_of trail ++ (length (book_of trail), mark) ∷ [] }
    ensures mark_book { (trail : List TrailItem) (mark : Mark) → book_of (trail ++ item.Marked mark ∷ []) ≡ book_of trail }
{}
