use crate::scope::Field;
use crate::tree::{TypedFrom, TypedSource};
use hv_base::{Boxed, List, Text};

/// A source of FROM, and the columns that it has.
#[derive(Drop)]
pub struct Brought {
    pub source: TypedSource,
    pub alias: Text,
    pub fields: List<Field>,
}

/// Sources and lateral views so far.
#[derive(Drop)]
pub struct Sources {
    pub from: Boxed<TypedFrom>,
    pub aliases: List<Text>,
    /// Aliases of semi-joined sources, whose columns aren't seen.
    pub hidden: List<Text>,
    pub fields: List<Field>,
}

/// What FROM brings into scope.
#[derive(Drop)]
pub struct Opened {
    pub from: Option<Boxed<TypedFrom>>,
    pub aliases: List<Text>,
    pub fields: List<Field>,
}
