ghost use Rattle.std.specs.Prelude.{◌≡◌, [], IfOk, IfSome, slice_get};
ghost use Rattle.hv_expr.specs.Evaluation.{value_of};
ghost use Rattle.hv_expr.specs.Values.{taken_or_null};
ghost use Rattle.hv_seen.specs.Seen.{seen_value};
ghost use Rattle.hv_eval.specs.Frames.{frame_values};
ghost use Rattle.hv_eval.specs.Accumulating.{merged};
ghost use Rattle.hv_partial.specs.Sums.{aggregate_of, function_of, added, one_more, sum_over};

use hv_base::{Boxed, NoMemory};
use hv_eval::{Frame, Scope, eval_at, merge, seen_at, start, step};
use hv_expr::{Aggregate, TypedExpr};
use hv_seen::{Seen, null, number, of_big, of_bool, taken, view};
use hv_value::SqlType;
use std::alloc::Global;

/// An aggregate that gives a number.
#[derive(Clone, Copy)]
pub enum Numeric {
    Count,
    Total,
}

impl Numeric {
    pub(crate) fn aggregate(self) -> Aggregate
        ensures { result ≡ aggregate_of self }
    {
        match self {
            Numeric::Count => Aggregate::Count,
            Numeric::Total => Aggregate::Sum,
        }
    }
}

/// What is kept of a group in place of the values that an aggregate is over.
#[derive(Drop)]
pub enum Sum {
    /// How many rows there are.
    Rows,
    /// An aggregate of a column: its place, and its type.
    Column(Aggregate, u32, SqlType),
    /// A number of an expression on each row.
    Computed(Numeric, Boxed<TypedExpr>),
}

fn value_at<'a>(row: &Frame<'a>, place: u32, kind: &SqlType) -> Seen<'a>
    ensures { seen_value result ≡ taken_or_null kind.now (slice_get (frame_values row.now) place) }
{
    match row.get(place as usize) {
        Some(value) => taken(kind, value),
        None => null(),
    }
}

// One value more, where what is kept holds nothing of the value.
#[tactic(auto, using(crate::proofs::SumLaws::numbers))]
fn number_more<'a>(numeric: Numeric, kept: &Seen, value: &Seen) -> Seen<'a>
    ensures { seen_value result ≡ added (aggregate_of numeric) (seen_value kept.now) (seen_value value.now) }
{
    of_big(number(&step(numeric.aggregate(), kept, value)))
}

#[tactic(auto, unfolding(hv_expr::specs::Evaluation::value_of))]
fn computed_more<'a>(
    alloc: Global,
    numeric: Numeric,
    argument: &'a TypedExpr,
    kept: &Seen<'a>,
    row: &Frame<'a>,
) -> Result<Seen<'a>, NoMemory>
    ensures { IfOk result (λ seen. seen_value seen ≡ added (aggregate_of numeric) (seen_value kept.now) (value_of argument.now (frame_values row.now))) }
{
    let at = Scope::alone(*row);
    match seen_at(argument, &at) {
        Some(seen) => Ok(step(numeric.aggregate(), kept, &seen)),
        None => {
            let made = eval_at(alloc, argument, &at)?;
            Ok(number_more(numeric, kept, &view(&made)))
        }
    }
}

impl Sum {
    /// The sum over no rows.
    #[tactic(auto, unfolding(crate::specs::Sums::sum_over))]
    pub(crate) fn begin<'a>(&self) -> Seen<'a>
        ensures { seen_value result ≡ sum_over [] self.now }
    {
        match self {
            Sum::Rows => start(Aggregate::Count),
            Sum::Column(function, _, _) => start(*function),
            Sum::Computed(numeric, _) => start(numeric.aggregate()),
        }
    }

    /// The sum with one row more.
    #[tactic(auto, unfolding(crate::specs::Sums::one_more))]
    pub(crate) fn more<'a>(
        &'a self,
        alloc: Global,
        kept: &Seen<'a>,
        row: &Frame<'a>,
    ) -> Result<Seen<'a>, NoMemory>
        ensures { IfOk result (λ seen. seen_value seen ≡ one_more self.now (seen_value kept.now) (frame_values row.now)) }
    {
        match self {
            Sum::Rows => Ok(step(Aggregate::Count, kept, &of_bool(true))),
            Sum::Column(function, place, kind) => {
                Ok(step(*function, kept, &value_at(row, *place, kind)))
            }
            Sum::Computed(numeric, argument) => {
                computed_more(alloc, *numeric, argument.get(), kept, row)
            }
        }
    }

    /// The sum over the rows of both.
    pub(crate) fn both<'a>(&self, kept: &Seen<'a>, other: &Seen<'a>) -> Seen<'a>
        ensures { seen_value result ≡ merged (function_of self.now) (seen_value kept.now) (seen_value other.now) }
    {
        match self {
            Sum::Rows => merge(Aggregate::Count, kept, other),
            Sum::Column(function, _, _) => merge(*function, kept, other),
            Sum::Computed(numeric, _) => merge(numeric.aggregate(), kept, other),
        }
    }
}
