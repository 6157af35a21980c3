//! A statement typed over the descriptions of the tables that it names, before any of their rows is read.

ghost use Rattle.std.specs.Prelude.{◌≡◌, ◌||◌, List, Ok, Err, IfOk, OnOk};
ghost use Rattle.hv_typing.specs.Analysis.{analysed};
ghost use Rattle.hv_meaning.specs.Meaning.{refused_for, meant};
ghost use Rattle.hv_meaning.specs.Needs.{KeepMeaning};
ghost use Rattle.hv_effect.specs.Tables.{found_of};
ghost use Rattle.hv_effect.specs.Needs.{widths_of, logic_needs, needs_of, wants};
ghost use Rattle.hv_effect.specs.Studied.{typed_in};
ghost use Rattle.hv_value.specs.declared.value.Value.{Value as ValueOf};

use crate::needs::{Need, put_change, put_query, widths_of};
use crate::statement::{meant, refused_for};
use crate::touching::Touching;
use hv_analysis::analyse;
use hv_ast::Stmt;
use hv_base::{NoMemory, Refusal};
use hv_logic::{TableInfo, TableRows};
use hv_typing::{Logic, TypeFault};
use std::alloc::Global;

/// What a statement is typed as, or its first fault.
#[derive(Drop)]
pub enum Typed {
    As(Logic),
    Refused(Refusal),
}

/// A statement typed over tables of these descriptions.
#[derive(Drop)]
pub struct Studied {
    pub infos: Vec<TableInfo>,
    pub typed: Typed,
}

fn analysed(alloc: Global, infos: &[TableInfo], tree: &Stmt) -> Result<Typed, NoMemory>
    ensures { IfOk result (λ typed. typed_in typed ≡ analysed infos.now tree.now) }
{
    match analyse(alloc, infos, tree) {
        Ok(logic) => Ok(Typed::As(logic)),
        Err(TypeFault::Refused(why)) => Ok(Typed::Refused(why)),
        Err(TypeFault::NoMemory) => Err(NoMemory),
    }
}

/// The statement typed over the tables that it names, in the order in which it names them.
pub fn study(alloc: Global, infos: Vec<TableInfo>, tree: &Stmt) -> Result<Studied, NoMemory>
    ensures infos { IfOk result (λ studied. studied.infos.items ≡ infos.items) }
    ensures typed { IfOk result (λ studied. typed_in studied.typed ≡ analysed infos.items tree.now) }
    ensures keeps { IfOk result (λ studied. KeepMeaning tree.now studied.infos.items
        (needs_of studied.infos.items (typed_in studied.typed))) }
{
    let typed = analysed(alloc, infos.as_slice(), tree)?;
    Ok(Studied { infos, typed })
}

fn put_logic<'a>(
    alloc: Global,
    infos: &[TableInfo],
    widths: &[usize],
    logic: &'a Logic,
    place: usize,
    need: &mut Need<'a>,
) -> Result<(), NoMemory>
    requires { widths.now ≡ widths_of infos.now }
    ensures { OnOk result ((values : List ValueOf)
        → wants need.new values ≡ (wants need.old values || logic_needs infos.now place values (Ok logic.now))) }
{
    match logic {
        Logic::Query(query) => put_query(alloc, widths, query, place, need),
        Logic::Change(change) => put_change(alloc, infos, widths, change, place, need),
        Logic::Merge(_) => {
            need.put_all();
            Ok(())
        }
        Logic::Make(_) => Ok(()),
        Logic::Unmake(_) => Ok(()),
        Logic::Nothing => Ok(()),
        Logic::Describe(_) => Ok(()),
        Logic::Explain(_) => Ok(()),
        Logic::Ask(_) => Ok(()),
    }
}

impl Studied {
    /// Which partitions it needs of the table at this place.
    pub fn need(&self, alloc: Global, place: usize) -> Result<Need<'_>, NoMemory>
        ensures { IfOk result (λ need. (values : List ValueOf)
            → wants need values ≡ logic_needs self.now.infos.items place values (typed_in self.now.typed)) }
    {
        let mut need = Need::none(alloc);
        if let Typed::As(logic) = &self.typed {
            let widths = widths_of(alloc, self.infos.as_slice())?;
            put_logic(
                alloc,
                self.infos.as_slice(),
                widths.as_slice(),
                logic,
                place,
                &mut need,
            )?;
        }
        Ok(need)
    }
}

/// What it comes to where these rows of its tables stand, or those alone that it needs; None where its form isn't built.
pub fn mean(
    alloc: Global,
    studied: Studied,
    rows: &[TableRows],
) -> Result<Option<Touching>, NoMemory>
    ensures { IfOk result (λ meaning. meaning ≡ meant studied.infos.items (found_of rows.now) (typed_in studied.typed)) }
{
    let Studied { infos, typed } = studied;
    match typed {
        Typed::As(logic) => meant(alloc, infos.as_slice(), rows, logic),
        Typed::Refused(why) => Ok(refused_for(alloc, why)),
    }
}
