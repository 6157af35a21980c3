ghost use Rattle.std.specs.Prelude.{◌≡◌, [], ◌∷◌, IfOk};
ghost use Rattle.hv_route.specs.Placing.{is_there, runs_of};

use crate::placed::Placed;
use hv_base::{List, NoMemory, Text};
use std::alloc::Global;
use std::mem::replace;

/// Items of one partition and bucket, in their order.
#[derive(Drop)]
pub struct Run<T> {
    pub partition: Text,
    pub bucket: u32,
    pub items: List<T>,
}

// A run that more items may join.
#[derive(Drop)]
struct Open<T> {
    partition: Text,
    bucket: u32,
    items: Vec<T>,
}

impl<T> Open<T> {
    fn begun(alloc: Global, placed: Placed<T>) -> Result<Open<T>, NoMemory>
    where
        T: Drop,
        ensures partition { IfOk result (λ run. run.partition ≡ placed.partition) }
        ensures bucket { IfOk result (λ run. run.bucket ≡ placed.bucket) }
        ensures items { IfOk result (λ run. run.items.items ≡ placed.item ∷ []) }
    {
        let Placed {
            partition,
            bucket,
            item,
        } = placed;
        let mut items = Vec::new(alloc);
        items.push(item)?;
        Ok(Open {
            partition,
            bucket,
            items,
        })
    }

    fn takes(&self, placed: &Placed<T>) -> bool
        ensures { result ≡ is_there self.now.partition self.now.bucket placed.now }
    {
        placed.partition == self.partition && placed.bucket == self.bucket
    }

    fn closed(self) -> Run<T>
        ensures { result ≡ record {
          partition = self.partition;
          bucket = self.bucket;
          items = self.items.items;
        } }
    {
        let Open {
            partition,
            bucket,
            items,
        } = self;
        Run {
            partition,
            bucket,
            items: List::from_vec(items),
        }
    }
}

/// The longest runs of items of one place, one behind the other.
pub fn runs_of<T: Drop>(alloc: Global, placed: Vec<Placed<T>>) -> Result<Vec<Run<T>>, NoMemory>
    ensures { IfOk result (λ runs. runs.items ≡ runs_of placed.items) }
{
    let mut runs = Vec::new(alloc);
    let mut left = placed.into_iter();
    let Some(first) = left.next() else {
        return Ok(runs);
    };
    let mut current = Open::begun(alloc, first)?;
    for next in left {
        if current.takes(&next) {
            current.items.push(next.item)?;
        } else {
            let next = Open::begun(alloc, next)?;
            runs.push(replace(&mut current, next).closed())?;
        }
    }
    runs.push(current.closed())?;
    Ok(runs)
}
