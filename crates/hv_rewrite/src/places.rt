ghost use Rattle.std.specs.Prelude.{◌≡◌, ◌+◌, IfOk};
ghost use Rattle.hv_law_expr.specs.Places.{looks_only, only_all, only_links};
ghost use Rattle.hv_rewrite.specs.Conditions.{within};

use hv_base::NoMemory;
use hv_expr::{Link, TypedExpr};

/// The places of a joined row from one to below another.
#[derive(Clone, Copy)]
pub(crate) struct Places {
    pub from: usize,
    pub to: usize,
}

impl Places {
    #[tactic(auto, unfolding(crate::specs::Conditions::within))]
    fn has(self, place: u32) -> bool
        ensures { result ≡ within self.from self.to place }
    {
        self.from <= place as usize && (place as usize) < self.to
    }
}

/// The places of so many values behind so many others.
pub(crate) fn places_at(base: usize, width: u32) -> Result<Places, NoMemory>
    ensures { IfOk result (λ places. places ≡ record { from = base; to = base + width }) }
{
    let to = base.checked_add(width as usize).ok_or(NoMemory)?;
    Ok(Places { from: base, to })
}

/// Whether the expression looks at these places alone. Of CASE and aggregates that isn't said.
#[cycle(reach)]
#[tactic(auto, using(hv_law_expr::proofs::OnlyLaws::nodes))]
pub(crate) fn looks_only(expr: &TypedExpr, places: Places) -> bool
    ensures { result ≡ looks_only (within places.from places.to) expr.now }
{
    match expr {
        TypedExpr::Column(place, _) => places.has(*place),
        TypedExpr::Literal(..) => true,
        TypedExpr::One(_, _, operand) => looks_only(operand.get(), places),
        TypedExpr::Two(_, _, left, right) => {
            looks_only(left.get(), places) && looks_only(right.get(), places)
        }
        TypedExpr::Three(_, _, first, second, third) => {
            looks_only(first.get(), places)
                && looks_only(second.get(), places)
                && looks_only(third.get(), places)
        }
        TypedExpr::Many(_, _, operands) => only_all(operands.as_slice(), places),
        TypedExpr::In { value, among, .. } => {
            looks_only(value.get(), places) && only_all(among.as_slice(), places)
        }
        TypedExpr::Chain(_, first, links) => {
            looks_only(first.get(), places) && only_links(links.as_slice(), places)
        }
        TypedExpr::Case { .. } => false,
        TypedExpr::CountRows => false,
        TypedExpr::Aggregate { .. } => false,
    }
}

#[cycle(reach)]
#[tactic(auto, unfolding(hv_law_expr::specs::Places::only_all))]
fn only_all(exprs: &[TypedExpr], places: Places) -> bool
    ensures { result ≡ only_all (looks_only (within places.from places.to)) exprs.now }
{
    for expr in exprs {
        if !looks_only(expr, places) {
            return false;
        }
    }
    true
}

#[cycle(reach)]
#[tactic(auto, unfolding(hv_law_expr::specs::Places::only_links))]
fn only_links(links: &[Link], places: Places) -> bool
    ensures { result ≡ only_links (looks_only (within places.from places.to)) links.now }
{
    for link in links {
        if !looks_only(&link.operand, places) {
            return false;
        }
    }
    true
}
