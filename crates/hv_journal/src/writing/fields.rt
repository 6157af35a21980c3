ghost use Rattle.std.specs.Prelude.{◌<◌, ◌^◌, length};
ghost use Rattle.hv_bytes.specs.Writing.{HasRoom, Appends};
ghost use Rattle.hv_history.specs.Spelling.{touch_spelling, touches_spelling, row_spelling, place_spelling, kind_spelling, TouchHasSpelling, TouchesHaveSpelling, RowHasSpelling, PlaceHasSpelling};

use crate::lists::Touches;
use hv_base::{List, RowId, Touch};
use hv_bytes::{put_byte, put_items, put_text, put_u32, put_u64};
use hv_history::{FilePlace, JobKind};

#[tactic(auto, using(crate::proofs::Room::room), unfolding(hv_history::specs::Spelling::touch_spelling))]
pub fn put_touch(out: &mut Vec<u8>, t: &Touch)
    requires room { HasRoom out.old (touch_spelling t.now) }
    requires short { length (touch_spelling t.now) < 2 ^ 32 }
    ensures appended { Appends out.old out.new (touch_spelling t.now) }
    ensures has { TouchHasSpelling t.now }
{
    put_u64(out, t.table.0);
    put_text(out, &t.partition);
    put_u64(out, t.inserted);
    put_u64(out, t.deleted);
}

#[tactic(auto, using(crate::proofs::Room::room), unfolding(hv_history::specs::Spelling::touches_spelling))]
pub fn put_touches(out: &mut Vec<u8>, touches: &List<Touch>)
    requires room { HasRoom out.old (touches_spelling touches.now) }
    requires short { length (touches_spelling touches.now) < 2 ^ 32 }
    ensures appended { Appends out.old out.new (touches_spelling touches.now) }
    ensures has { TouchesHaveSpelling touches.now }
{
    put_u32(out, touches.len() as u32);
    put_items::<Touch, Touches>(out, touches.as_slice());
}

#[tactic(auto, using(crate::proofs::Room::room), unfolding(hv_history::specs::Spelling::row_spelling))]
pub fn put_row(out: &mut Vec<u8>, row: RowId)
    requires { HasRoom out.old (row_spelling row) }
    ensures appended { Appends out.old out.new (row_spelling row) }
    ensures has { RowHasSpelling row }
{
    put_u64(out, row.write.0);
    put_u32(out, row.statement);
    put_u32(out, row.bucket);
    put_u64(out, row.row);
}

#[tactic(auto, using(crate::proofs::Room::room), unfolding(hv_history::specs::Spelling::place_spelling))]
pub fn put_place(out: &mut Vec<u8>, place: &FilePlace)
    requires room { HasRoom out.old (place_spelling place.now) }
    requires short { length (place_spelling place.now) < 2 ^ 32 }
    ensures appended { Appends out.old out.new (place_spelling place.now) }
    ensures has { PlaceHasSpelling place.now }
{
    put_u64(out, place.table.0);
    put_text(out, &place.partition);
    put_text(out, &place.dir);
    put_u32(out, place.bucket);
    put_u64(out, place.at);
}

pub fn put_kind(out: &mut Vec<u8>, kind: JobKind)
    requires { HasRoom out.old (kind_spelling kind) }
    ensures { Appends out.old out.new (kind_spelling kind) }
{
    match kind {
        JobKind::Minor => put_byte(out, 1),
        JobKind::Major => put_byte(out, 2),
    }
}
