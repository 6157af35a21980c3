use hv_logic::hv_value::SqlType;

/// What a place of a function asks of its operand.
#[derive(Clone, Copy)]
pub enum Place {
    Any,
    /// A BOOLEAN.
    Truth,
    /// An integer of either width.
    Integer,
    /// An INT alone.
    Int,
    /// A STRING.
    Text,
    /// A DATE, or a STRING that is read as one.
    Date,
    Array,
    /// Anything that is no array.
    Ordered,
}

/// The type of what a function gives.
#[derive(Clone, Copy)]
pub enum Gives {
    Fixed(SqlType),
    /// That of the first operand.
    Same,
    /// The wider one of the first two.
    Wider,
    /// That of the elements of the first one.
    Element,
}

/// What a function of two operands asks of them.
#[derive(Clone, Copy)]
pub enum Pair {
    /// One type of both, to be compared.
    Compared,
    /// One type of both, which is that of the result.
    Unified,
    Placed(Place, Place, Gives),
}
