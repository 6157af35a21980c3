//! The functions of typed expressions by number.

ghost use Rattle.std.specs.Prelude.{◌≡◌};
ghost use Rattle.hv_typing.specs.Numbers as spec;

use hv_expr::{Aggregate, Arithmetic, Many, One, Three, Two};

fn one_number(function: One) -> u8
    ensures { result ≡ spec.one_number function }
{
    match function {
        One::Plus => 0,
        One::Minus => 1,
        One::Not => 2,
        One::IsNull => 3,
        One::IsNotNull => 4,
        One::Cast => 5,
        One::Size => 6,
        One::Length => 7,
        One::Lower => 8,
        One::Upper => 9,
        One::Trim => 10,
        One::Abs => 11,
        One::Year => 12,
        One::Month => 13,
        One::Day => 14,
    }
}

pub(crate) fn same_one(left: One, right: One) -> bool
    ensures { result ≡ spec.same_one left right }
{
    one_number(left) == one_number(right)
}

fn two_number(function: Two) -> u8
    ensures { result ≡ spec.two_number function }
{
    match function {
        Two::Equal => 0,
        Two::Unequal => 1,
        Two::Less => 2,
        Two::AtMost => 3,
        Two::Greater => 4,
        Two::AtLeast => 5,
        Two::NullSafeEqual => 6,
        Two::Like => 7,
        Two::NotLike => 8,
        Two::Element => 9,
        Two::Nvl => 10,
        Two::Substr => 11,
        Two::Substring => 12,
        Two::Instr => 13,
        Two::Pmod => 14,
        Two::DateAdd => 15,
        Two::DateSub => 16,
        Two::DateDiff => 17,
    }
}

pub(crate) fn same_two(left: Two, right: Two) -> bool
    ensures { result ≡ spec.same_two left right }
{
    two_number(left) == two_number(right)
}

fn three_number(function: Three) -> u8
    ensures { result ≡ spec.three_number function }
{
    match function {
        Three::If => 0,
        Three::Between => 1,
        Three::NotBetween => 2,
        Three::Substr => 3,
        Three::Substring => 4,
    }
}

pub(crate) fn same_three(left: Three, right: Three) -> bool
    ensures { result ≡ spec.same_three left right }
{
    three_number(left) == three_number(right)
}

fn many_number(function: Many) -> u8
    ensures { result ≡ spec.many_number function }
{
    match function {
        Many::And => 0,
        Many::Or => 1,
        Many::Coalesce => 2,
        Many::Concat => 3,
        Many::Array => 4,
    }
}

pub(crate) fn same_many(left: Many, right: Many) -> bool
    ensures { result ≡ spec.same_many left right }
{
    many_number(left) == many_number(right)
}

fn arithmetic_number(function: Arithmetic) -> u8
    ensures { result ≡ spec.arithmetic_number function }
{
    match function {
        Arithmetic::Add => 0,
        Arithmetic::Subtract => 1,
        Arithmetic::Multiply => 2,
        Arithmetic::Divide => 3,
        Arithmetic::Remainder => 4,
    }
}

pub(crate) fn same_arithmetic(left: Arithmetic, right: Arithmetic) -> bool
    ensures { result ≡ spec.same_arithmetic left right }
{
    arithmetic_number(left) == arithmetic_number(right)
}

fn aggregate_number(function: Aggregate) -> u8
    ensures { result ≡ spec.aggregate_number function }
{
    match function {
        Aggregate::Count => 0,
        Aggregate::Sum => 1,
        Aggregate::Min => 2,
        Aggregate::Max => 3,
    }
}

pub(crate) fn same_aggregate(left: Aggregate, right: Aggregate) -> bool
    ensures { result ≡ spec.same_aggregate left right }
{
    aggregate_number(left) == aggregate_number(right)
}
