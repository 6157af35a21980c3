//! The line of EXPLAIN FORMATTED.

ghost use Rattle.std.specs.Prelude.{◌≡◌, map, codes, string_bytes, IfOk};
ghost use Rattle.serde_json.specs.Data.{string, array, object, member, no_members};
ghost use Rattle.serde_json.specs.View.{view, items_of};
ghost use Rattle.hv_typing.specs.StageLine.{stage_name, stages_line};

use crate::stages::Stages;
use hv_base::{NoMemory, Text};
use hv_typing::StageKind;
use serde_json::{Map, Value};
use std::alloc::Global;

fn stage_name(kind: StageKind) -> &'static str
    ensures { result.now ≡ stage_name kind }
{
    match kind {
        StageKind::Map => "map",
        StageKind::Shuffle => "shuffle",
        StageKind::Reduce => "reduce",
    }
}

fn name_of(alloc: Global, kind: StageKind) -> Result<Value, NoMemory>
    ensures { IfOk result (λ value. view value ≡ string (stage_name kind)) }
{
    let name = String::from_str(alloc, stage_name(kind))?;
    Ok(Value::String(name))
}

fn names_of(alloc: Global, kinds: &[StageKind]) -> Result<Vec<Value>, NoMemory>
    ensures { IfOk result (λ names. map view names.items ≡ map (λ kind. string (stage_name kind)) kinds.now) }
{
    let mut names = Vec::with_capacity(alloc, kinds.len())?;
    for kind in kinds {
        names.push(name_of(alloc, *kind)?)?;
    }
    Ok(names)
}

fn value_of(alloc: Global, kinds: &[StageKind]) -> Result<Value, NoMemory>
    ensures { IfOk result (λ value. view value ≡ object (member (codes "stages")
        (array (items_of (map (λ kind. string (stage_name kind)) kinds.now))) no_members)) }
{
    let names = names_of(alloc, kinds)?;
    let mut members = Map::new(alloc);
    members.insert(String::from_str(alloc, "stages")?, Value::Array(names))?;
    Ok(Value::Object(members))
}

fn text_of(alloc: Global, kinds: &[StageKind]) -> Result<String, NoMemory>
    ensures { IfOk result (λ text. string_bytes text ≡ stages_line kinds.now) }
{
    let value = value_of(alloc, kinds)?;
    let text = value.to_string(alloc)?;
    Ok(text)
}

/// The line that names the stages in order: JSON without spaces, an object whose one member `stages` is the array of
/// `map`, `shuffle` and `reduce`.
pub fn explain(alloc: Global, stages: &Stages) -> Result<Text, NoMemory>
    ensures { IfOk result (λ line. line ≡ stages_line stages.now.kinds) }
{
    let text = text_of(alloc, stages.kinds.as_slice())?;
    Text::of(alloc, text.as_str())
}
