use hv_base::Text;

/// A symbol.
#[derive(Clone, Copy)]
pub enum Symbol {
    /// `<=>`
    NullSafeEqual,
    /// `==`
    EqualTwice,
    /// `<>`
    Unequal,
    /// `!=`
    BangEqual,
    /// `<=`
    AtMost,
    /// `>=`
    AtLeast,
    /// `=`
    Equal,
    /// `<`
    Less,
    /// `>`
    Greater,
    /// `(`
    Open,
    /// `)`
    Close,
    /// `[`
    OpenIndex,
    /// `]`
    CloseIndex,
    /// `,`
    Comma,
    /// `.`
    Dot,
    /// `*`
    Star,
    /// `+`
    Plus,
    /// `-`
    Minus,
    /// `%`
    Percent,
}

/// What a token is.
#[derive(Drop)]
pub enum Lexeme {
    /// A word, in lower case: a keyword or an identifier.
    Word(Text),
    /// An identifier between backquotes, in lower case. It is never a keyword.
    Quoted(Text),
    /// A number of type INT.
    Int(i32),
    /// A number of type BIGINT.
    Big(i64),
    /// A string after its escapes.
    Str(Text),
    /// A symbol, as `<=`.
    Symbol(Symbol),
}

/// A token of a text, and the place of its first byte, from 0.
#[derive(Drop)]
pub struct Token {
    pub what: Lexeme,
    pub at: u64,
}
