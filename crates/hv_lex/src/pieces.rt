ghost use Rattle.std.specs.Prelude.{◌≡◌, Some, None};

use hv_ast::Lexeme;

/// What a text begins with, and its length in bytes.
#[derive(Drop)]
pub struct Piece {
    /// The token, or None for a space or a comment.
    pub what: Option<Lexeme>,
    pub length: usize,
}

impl Piece {
    pub fn token(what: Lexeme, length: usize) -> Piece
        ensures { result ≡ record { what = Some what; length = length } }
    {
        Piece {
            what: Some(what),
            length,
        }
    }

    pub fn gap(length: usize) -> Piece
        ensures { result ≡ record { what = None; length = length } }
    {
        Piece { what: None, length }
    }
}
