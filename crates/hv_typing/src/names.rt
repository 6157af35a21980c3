use hv_expr::{Aggregate, Many, One, Three, Two};

/// A function that has a name, by how many arguments it takes.
#[derive(Clone, Copy)]
pub enum Function {
    One(One),
    Two(Two),
    Three(Three),
    /// Of two arguments or of three.
    Part(Two, Three),
    Many(Many),
    Aggregate(Aggregate),
}
