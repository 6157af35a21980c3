//! Which calls of a case's store fail.

use crate::words::{cut, number};
use hv_base::NoMemory;
use hv_shelf::{Fail, Op};
use std::alloc::Global;

/// The calls of a store on files.
static CALLS: [(&str, Op); 5] = [
    ("list", Op::List),
    ("get", Op::Get),
    ("put", Op::Put),
    ("rename", Op::Rename),
    ("remove", Op::Remove),
];

/// The call of that name, by its number among those of its kind.
fn add_fail(plan: &mut Vec<Fail>, named: &str, nth: u64) -> Result<(), NoMemory> {
    for (name, op) in &CALLS {
        if *name == named {
            plan.push(Fail { op: *op, nth })?;
        }
    }
    Ok(())
}

/// Those that the case's lines `fails CALL N` name.
pub(crate) fn fails(alloc: Global, lines: &str) -> Result<Vec<Fail>, NoMemory> {
    let mut plan = Vec::new(alloc);
    for line in lines.lines() {
        if let Some(rest) = line.strip_prefix("fails ") {
            let (named, nth) = cut(rest, ' ');
            add_fail(&mut plan, named, number(nth))?;
        }
    }
    Ok(plan)
}
