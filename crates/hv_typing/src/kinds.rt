/// How several expressions come to one type.
#[derive(Clone, Copy)]
pub enum Meeting {
    /// As the values of CASE do.
    Unified,
    /// As the sides of a comparison do.
    Compared,
}
