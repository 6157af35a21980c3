use crate::statement::Stmt;

/// Lets go of a value, in a function without other paths.
fn let_go<T: Drop>(_value: T) {}

/// Lets go of a statement. Its many kinds are too much for a function with other paths, and where
/// another crate drops one, each of them is proved again there.
pub fn discard(statement: Stmt) {
    let_go(statement);
}
