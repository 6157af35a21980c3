ghost use Rattle.std.specs.Prelude.{◌≡◌, [], slice_get, option_map};
ghost use Rattle.hv_expr.specs.Evaluation.{first_row};
ghost use Rattle.hv_eval.specs.Frames.{frame_values, frames_values, row_of, group_of};

use hv_value::Value;

/// A joined row: the rows of its sources from the left, each where it stands. The last of them stands
/// apart, so that a pair of rows needs no list of its own.
#[derive(Clone, Copy)]
pub struct Frame<'a> {
    pub before: &'a [&'a [Value]],
    pub last: &'a [Value],
}

/// Where an expression is taken: on a row, which stands among the rows of a group or by itself.
#[derive(Clone, Copy)]
pub struct Scope<'a> {
    pub group: &'a [Frame<'a>],
    pub row: Frame<'a>,
}

fn value_at<'a>(row: &'a [Value], place: usize) -> Option<&'a Value>
    ensures { option_map (λ value. value.now) result ≡ slice_get row.now place }
{
    row.get(place)
}

impl<'a> Frame<'a> {
    /// A row of one source.
    pub fn of(row: &'a [Value]) -> Frame<'a>
        ensures { frame_values result ≡ row.now }
    {
        Frame {
            before: &[],
            last: row,
        }
    }

    /// The value at a place, from 0.
    pub fn get(&self, place: usize) -> Option<&'a Value>
        ensures { option_map (λ value. value.now) result ≡ slice_get (frame_values self.now) place }
    {
        let mut place = place;
        for part in self.before {
            if place < part.len() {
                return value_at(part, place);
            }
            place -= part.len();
        }
        value_at(self.last, place)
    }
}

impl<'a> Scope<'a> {
    /// A row by itself: an aggregate is over no rows.
    #[tactic(auto, unfolding(crate::specs::Frames::row_of, crate::specs::Frames::group_of))]
    pub fn alone(row: Frame<'a>) -> Scope<'a>
        ensures row { row_of result ≡ frame_values row.entry }
        ensures group { group_of result ≡ [] }
    {
        Scope { group: &[], row }
    }

    /// The rows of a group, on the first of them, or on a row without values where there is none.
    #[tactic(auto, unfolding(crate::specs::Frames::row_of, crate::specs::Frames::group_of))]
    pub fn over(group: &'a [Frame<'a>]) -> Scope<'a>
        ensures row { row_of result ≡ first_row (frames_values group.now) }
        ensures group { group_of result ≡ frames_values group.now }
    {
        match group.first() {
            Some(first) => Scope { group, row: *first },
            None => Scope {
                group,
                row: Frame::of(&[]),
            },
        }
    }

    /// The same group, on another row.
    #[tactic(auto, unfolding(crate::specs::Frames::row_of, crate::specs::Frames::group_of))]
    pub fn on(&self, row: Frame<'a>) -> Scope<'a>
        ensures row { row_of result ≡ frame_values row.entry }
        ensures group { group_of result ≡ group_of self.now }
    {
        Scope {
            group: self.group,
            row,
        }
    }
}
