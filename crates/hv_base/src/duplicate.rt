ghost use Rattle.std.specs.Prelude.{◌≡◌, IfOk};

use crate::boxed::Boxed;
use crate::failure::NoMemory;
use crate::list::List;
use crate::text::Text;
use std::alloc::Global;

/// A copy that equals its source.
///
/// A type that holds itself through `List` or `Boxed` writes its `duplicate` as a cycle with a
/// function over a slice of its own values, since a recursion isn't followed through the impls here.
pub trait Duplicate: Sized {
    fn duplicate(&self, alloc: Global) -> Result<Self, NoMemory>
        ensures same { IfOk result (λ copy. copy ≡ self.now) };
}

impl Duplicate for Text {
    fn duplicate(&self, alloc: Global) -> Result<Text, NoMemory> {
        Text::of(alloc, self.as_str())
    }
}

impl<T: Duplicate + Drop> Duplicate for List<T> {
    fn duplicate(&self, alloc: Global) -> Result<List<T>, NoMemory> {
        let items = self.as_slice();
        let mut copy = Vec::with_capacity(alloc, items.len())?;
        for item in items {
            copy.push(item.duplicate(alloc)?)?;
        }
        Ok(List::from_vec(copy))
    }
}

impl<T: Duplicate + Drop> Duplicate for Option<T> {
    fn duplicate(&self, alloc: Global) -> Result<Option<T>, NoMemory> {
        match self {
            Some(value) => Ok(Some(value.duplicate(alloc)?)),
            None => Ok(None),
        }
    }
}

impl<T: Duplicate + Drop> Duplicate for Boxed<T> {
    fn duplicate(&self, alloc: Global) -> Result<Boxed<T>, NoMemory> {
        Boxed::new(alloc, self.get().duplicate(alloc)?)
    }
}
