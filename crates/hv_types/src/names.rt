//! The functions by their names.

ghost use Rattle.std.specs.Prelude.{◌≡◌, map};
ghost use Rattle.hv_typing.specs.Calls as spec;

use hv_expr::{Aggregate, Many, One, Three, Two};
use hv_typing::Function;

/// A function's name, in lower case, and the function.
struct Row(&'static str, Function);

static FUNCTIONS: [Row; 25] = [
    Row("if", Function::Three(Three::If)),
    Row("nvl", Function::Two(Two::Nvl)),
    Row("coalesce", Function::Many(Many::Coalesce)),
    Row("array", Function::Many(Many::Array)),
    Row("size", Function::One(One::Size)),
    Row("concat", Function::Many(Many::Concat)),
    Row("substr", Function::Part(Two::Substr, Three::Substr)),
    Row(
        "substring",
        Function::Part(Two::Substring, Three::Substring),
    ),
    Row("length", Function::One(One::Length)),
    Row("instr", Function::Two(Two::Instr)),
    Row("lower", Function::One(One::Lower)),
    Row("upper", Function::One(One::Upper)),
    Row("trim", Function::One(One::Trim)),
    Row("abs", Function::One(One::Abs)),
    Row("pmod", Function::Two(Two::Pmod)),
    Row("date_add", Function::Two(Two::DateAdd)),
    Row("date_sub", Function::Two(Two::DateSub)),
    Row("datediff", Function::Two(Two::DateDiff)),
    Row("year", Function::One(One::Year)),
    Row("month", Function::One(One::Month)),
    Row("day", Function::One(One::Day)),
    Row("count", Function::Aggregate(Aggregate::Count)),
    Row("sum", Function::Aggregate(Aggregate::Sum)),
    Row("min", Function::Aggregate(Aggregate::Min)),
    Row("max", Function::Aggregate(Aggregate::Max)),
];

/// The function in the first row of that name.
fn look_up(rows: &[Row], name: &str) -> Option<Function>
    ensures { result ≡ spec.look_up (map (λ row. (row.0.now, row.1)) rows.now) name.now }
{
    let mut rest = rows;
    while let [row, behind @ ..] = rest {
        if row.0 == name {
            return Some(row.1);
        }
        rest = behind;
    }
    None
}

/// The function of that name, written in lower case.
pub fn function_named(name: &str) -> Option<Function>
    ensures { result ≡ spec.function_named name.now }
{
    look_up(&FUNCTIONS, name)
}
