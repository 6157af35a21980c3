//! Kinds of tokens.

ghost use Rattle.std.specs.Prelude.{◌≡◌, ◌≢◌, ◌∷◌, true, false, map, List, ℕ};
ghost use Rattle.hv_grammar.specs.Kinds as spec;
ghost use Rattle.hv_grammar.specs.declared.kind.Kind.TheVariants as kind;

use hv_ast::{Lexeme, Symbol};

/// What a token is to the grammar: a keyword, a symbol, or one that holds a name or a value.
#[derive(Clone, Copy, PartialEq, Eq)]
pub enum Kind {
    // Keywords.
    All,
    Alter,
    And,
    Array,
    As,
    Between,
    BigInt,
    Boolean,
    By,
    Case,
    Cast,
    Create,
    Cross,
    Date,
    Delete,
    Describe,
    Distinct,
    Div,
    Drop,
    Else,
    End,
    Exists,
    False,
    From,
    Full,
    Group,
    Having,
    If,
    In,
    Inner,
    Insert,
    Int,
    Into,
    Is,
    Join,
    Lateral,
    Left,
    Like,
    Limit,
    Merge,
    Not,
    Null,
    On,
    Or,
    Order,
    Outer,
    Overwrite,
    Partition,
    Right,
    Select,
    Set,
    Table,
    Then,
    True,
    Truncate,
    Union,
    Update,
    Using,
    Values,
    View,
    When,
    Where,
    // Words that are keywords by their place alone, and names elsewhere.
    Abort,
    Asc,
    Buckets,
    Clustered,
    Comment,
    Compact,
    Compactions,
    Count,
    Default,
    Desc,
    Explain,
    Explode,
    Formatted,
    Locks,
    Matched,
    Orc,
    Partitioned,
    Partitions,
    PosExplode,
    Purge,
    Semi,
    Show,
    Stored,
    String,
    Tables,
    TblProperties,
    Transactions,
    /// Any other word, or an identifier between backquotes.
    Name,
    Number,
    Text,
    // Symbols.
    Open,
    Close,
    OpenIndex,
    CloseIndex,
    Comma,
    Dot,
    Star,
    Plus,
    Minus,
    Percent,
    /// `=`
    Equal,
    /// `==`, which compares as `=` does and stands in no assignment.
    EqualTwice,
    /// `<>` or `!=`
    Unequal,
    Less,
    AtMost,
    Greater,
    AtLeast,
    NullSafeEqual,
    /// No token: there are none left.
    Nothing,
}

/// A keyword: how it is spelled, and its kind.
struct Row(&'static str, Kind);

// The keywords by their first letter: reserved words, and behind them those that are keywords by their
// place alone.

static A_WORDS: [Row; 7] = [
    Row("all", Kind::All),
    Row("alter", Kind::Alter),
    Row("and", Kind::And),
    Row("array", Kind::Array),
    Row("as", Kind::As),
    Row("abort", Kind::Abort),
    Row("asc", Kind::Asc),
];

static B_WORDS: [Row; 5] = [
    Row("between", Kind::Between),
    Row("bigint", Kind::BigInt),
    Row("boolean", Kind::Boolean),
    Row("by", Kind::By),
    Row("buckets", Kind::Buckets),
];

static C_WORDS: [Row; 9] = [
    Row("case", Kind::Case),
    Row("cast", Kind::Cast),
    Row("create", Kind::Create),
    Row("cross", Kind::Cross),
    Row("clustered", Kind::Clustered),
    Row("comment", Kind::Comment),
    Row("compact", Kind::Compact),
    Row("compactions", Kind::Compactions),
    Row("count", Kind::Count),
];

static D_WORDS: [Row; 8] = [
    Row("date", Kind::Date),
    Row("delete", Kind::Delete),
    Row("describe", Kind::Describe),
    Row("distinct", Kind::Distinct),
    Row("div", Kind::Div),
    Row("drop", Kind::Drop),
    Row("default", Kind::Default),
    Row("desc", Kind::Desc),
];

static E_WORDS: [Row; 5] = [
    Row("else", Kind::Else),
    Row("end", Kind::End),
    Row("exists", Kind::Exists),
    Row("explain", Kind::Explain),
    Row("explode", Kind::Explode),
];

static F_WORDS: [Row; 4] = [
    Row("false", Kind::False),
    Row("from", Kind::From),
    Row("full", Kind::Full),
    Row("formatted", Kind::Formatted),
];

static G_WORDS: [Row; 1] = [Row("group", Kind::Group)];

static H_WORDS: [Row; 1] = [Row("having", Kind::Having)];

static I_WORDS: [Row; 8] = [
    Row("if", Kind::If),
    Row("in", Kind::In),
    Row("inner", Kind::Inner),
    Row("insert", Kind::Insert),
    Row("int", Kind::Int),
    Row("integer", Kind::Int),
    Row("into", Kind::Into),
    Row("is", Kind::Is),
];

static J_WORDS: [Row; 1] = [Row("join", Kind::Join)];

static L_WORDS: [Row; 5] = [
    Row("lateral", Kind::Lateral),
    Row("left", Kind::Left),
    Row("like", Kind::Like),
    Row("limit", Kind::Limit),
    Row("locks", Kind::Locks),
];

static M_WORDS: [Row; 2] = [Row("merge", Kind::Merge), Row("matched", Kind::Matched)];

static N_WORDS: [Row; 2] = [Row("not", Kind::Not), Row("null", Kind::Null)];

static O_WORDS: [Row; 6] = [
    Row("on", Kind::On),
    Row("or", Kind::Or),
    Row("order", Kind::Order),
    Row("outer", Kind::Outer),
    Row("overwrite", Kind::Overwrite),
    Row("orc", Kind::Orc),
];

static P_WORDS: [Row; 5] = [
    Row("partition", Kind::Partition),
    Row("partitioned", Kind::Partitioned),
    Row("partitions", Kind::Partitions),
    Row("posexplode", Kind::PosExplode),
    Row("purge", Kind::Purge),
];

static R_WORDS: [Row; 1] = [Row("right", Kind::Right)];

static S_WORDS: [Row; 6] = [
    Row("select", Kind::Select),
    Row("set", Kind::Set),
    Row("semi", Kind::Semi),
    Row("show", Kind::Show),
    Row("stored", Kind::Stored),
    Row("string", Kind::String),
];

static T_WORDS: [Row; 7] = [
    Row("table", Kind::Table),
    Row("then", Kind::Then),
    Row("true", Kind::True),
    Row("truncate", Kind::Truncate),
    Row("tables", Kind::Tables),
    Row("tblproperties", Kind::TblProperties),
    Row("transactions", Kind::Transactions),
];

static U_WORDS: [Row; 3] = [
    Row("union", Kind::Union),
    Row("update", Kind::Update),
    Row("using", Kind::Using),
];

static V_WORDS: [Row; 2] = [Row("values", Kind::Values), Row("view", Kind::View)];

static W_WORDS: [Row; 2] = [Row("when", Kind::When), Row("where", Kind::Where)];

/// The kind in the first row of this spelling, and `other` where there is none.
fn look_up(rows: &[Row], other: Kind, spelling: &str) -> Kind
    ensures { result ≡ spec.look_up (map (λ row. (row.0.now, row.1)) rows.now)
        other spelling.now }
{
    let mut rest = rows;
    while let [row, behind @ ..] = rest {
        if row.0 == spelling {
            return row.1;
        }
        rest = behind;
    }
    other
}

/// The keywords that begin with this letter.
#[tactic(auto, unfolding(crate::specs::Kinds::words, crate::specs::Kinds::reserved, crate::specs::Kinds::placed))]
fn rows_of(first: u8) -> &'static [Row]
    ensures { (rest : List ℕ)
        → spec.look_up (map (λ row. (row.0.now, row.1)) result.now) kind.Name (first ∷ rest)
        ≡ spec.word_kind (first ∷ rest) }
{
    match first {
        b'a' => &A_WORDS,
        b'b' => &B_WORDS,
        b'c' => &C_WORDS,
        b'd' => &D_WORDS,
        b'e' => &E_WORDS,
        b'f' => &F_WORDS,
        b'g' => &G_WORDS,
        b'h' => &H_WORDS,
        b'i' => &I_WORDS,
        b'j' => &J_WORDS,
        b'l' => &L_WORDS,
        b'm' => &M_WORDS,
        b'n' => &N_WORDS,
        b'o' => &O_WORDS,
        b'p' => &P_WORDS,
        b'r' => &R_WORDS,
        b's' => &S_WORDS,
        b't' => &T_WORDS,
        b'u' => &U_WORDS,
        b'v' => &V_WORDS,
        b'w' => &W_WORDS,
        _ => &[],
    }
}

/// The kind of a word, by its spelling in lower case.
#[tactic(auto, unfolding(crate::specs::Kinds::words, crate::specs::Kinds::reserved, crate::specs::Kinds::placed))]
pub fn word_kind(word: &str) -> Kind
    ensures { result ≡ spec.word_kind word.now }
{
    match word.as_bytes() {
        [first, ..] => look_up(rows_of(*first), Kind::Name, word),
        [] => Kind::Name,
    }
}

/// The kind of a symbol.
#[tactic(auto, unfolding(crate::specs::Kinds::symbol_kind))]
fn symbol_kind(symbol: Symbol) -> Kind
    ensures { result ≡ spec.symbol_kind symbol }
{
    match symbol {
        Symbol::NullSafeEqual => Kind::NullSafeEqual,
        Symbol::EqualTwice => Kind::EqualTwice,
        Symbol::Unequal | Symbol::BangEqual => Kind::Unequal,
        Symbol::AtMost => Kind::AtMost,
        Symbol::AtLeast => Kind::AtLeast,
        Symbol::Open => Kind::Open,
        Symbol::Close => Kind::Close,
        Symbol::OpenIndex => Kind::OpenIndex,
        Symbol::CloseIndex => Kind::CloseIndex,
        Symbol::Comma => Kind::Comma,
        Symbol::Dot => Kind::Dot,
        Symbol::Star => Kind::Star,
        Symbol::Plus => Kind::Plus,
        Symbol::Minus => Kind::Minus,
        Symbol::Percent => Kind::Percent,
        Symbol::Equal => Kind::Equal,
        Symbol::Less => Kind::Less,
        Symbol::Greater => Kind::Greater,
    }
}

/// What a token is to the grammar. An identifier between backquotes is never a keyword.
#[tactic(auto, unfolding(crate::specs::Kinds::kind_of))]
pub fn kind_of(lexeme: &Lexeme) -> Kind
    ensures { result ≡ spec.kind_of lexeme.now }
{
    match lexeme {
        Lexeme::Word(word) => word_kind(word.as_str()),
        Lexeme::Quoted(_) => Kind::Name,
        Lexeme::Int(_) | Lexeme::Big(_) => Kind::Number,
        Lexeme::Str(_) => Kind::Text,
        Lexeme::Symbol(symbol) => symbol_kind(*symbol),
    }
}

/// Whether two kinds are one.
pub fn same_kind(left: Kind, right: Kind) -> bool
    ensures value { result ≡ spec.same_kind left right }
    ensures same { result ≡ true → left ≡ right }
    ensures other { result ≡ false → left ≢ right }
{
    left == right
}
