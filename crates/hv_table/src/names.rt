ghost use Rattle.std.specs.Prelude.{◌≡◌, map, position, IsTrue};
ghost use Rattle.std.specs.Str.{bytes_eq};
ghost use Rattle.hv_table.specs.Rows.{rows_differ, IsPlaceOf};

use std::convert::AsStr;

/// A table of `N` names, as `Names { rows: ["asc", "desc"] }`.
pub struct Names<const N: usize, W = &'static str> {
    /// The names. [`Names::find`] asks that no two are equal.
    pub rows: [W; N],
}

impl<const N: usize, W: AsStr> Names<N, W> {
    /// The place of the one row that equals the word, and `None` where no row does.
    pub fn find(&self, word: &str) -> Option<usize>
        requires { IsTrue (rows_differ (map W.text self.now.rows)) }
        ensures exact { IsPlaceOf word.now (map W.text self.now.rows) result }
        ensures computes { result ≡ position (λ row. bytes_eq (W.text row) word.now) self.now.rows }
    {
        self.rows.iter().position(|row| row.as_str() == word)
    }
}
