ghost use Rattle.std.specs.Prelude.{◌≡◌, ◌<◌, ◌^◌, ◌++◌, List, Option, ℕ, length, IfOk};
ghost use Rattle.std.specs.List.{flat_map, AllByRecursion};
ghost use Rattle.hv_bytes.specs.Reading.{Gives, items_at};
ghost use Rattle.hv_bytes.specs.Writing.{HasRoom, Appends};

use crate::fault::FieldFault;
use std::alloc::Global;

/// A form in which items of a list are spelled, one behind the other.
pub trait Field<T> {
    /// How an item is spelled.
    ghost spelling: { T → List ℕ };

    /// The item that bytes begin with, and the bytes behind it.
    ghost at: { List ℕ → Option (T × List ℕ) };

    /// What has a spelling.
    ghost Has: { T → Type 0 };

    /// What can be written.
    ghost CanPut: { T → Type 0 };

    /// The item that the bytes begin with, and the bytes behind it.
    fn read(alloc: Global, bytes: &[u8]) -> Result<(T, &[u8]), FieldFault>
        ensures exact { Gives (λ x. (x.0, x.1.now)) result (at bytes.now) }
        ensures found { IfOk result (λ x. Has x.0 × (bytes.now ≡ spelling x.0 ++ x.1.now)) };

    /// How many bytes spell the item.
    fn byte_count(item: &T) -> usize
        requires { CanPut item.now }
        ensures { result ≡ length (spelling item.now) };

    /// Appends the item to a buffer that has room for it.
    fn put(out: &mut Vec<u8>, item: &T)
        requires room { HasRoom out.old (spelling item.now) }
        requires can { CanPut item.now }
        ensures appended { Appends out.old out.new (spelling item.now) }
        ensures has { Has item.now };
}

/// So many items, and the bytes behind them. Each item has a byte at least, so that no more memory is
/// reserved than there are bytes left.
pub fn read_items<T: Drop, F: Field<T>>(
    alloc: Global,
    count: u32,
    bytes: &[u8],
) -> Result<(Vec<T>, &[u8]), FieldFault>
    ensures exact { Gives (λ x. (x.0.items, x.1.now)) result (items_at F.at count bytes.now) }
    ensures found { IfOk result (λ x. (length x.0.items ≡ count)
        × AllByRecursion F.Has x.0.items
        × (bytes.now ≡ flat_map F.spelling x.0.items ++ x.1.now)) }
{
    let mut items = Vec::with_capacity(alloc, bytes.len().min(count as usize))?;
    let mut rest = bytes;
    for _ in 0..count {
        let (item, after) = F::read(alloc, rest)?;
        items.push(item)?;
        rest = after;
    }
    Ok((items, rest))
}

/// How many bytes spell the items.
pub fn items_length<T, F: Field<T>>(items: &[T]) -> usize
    requires short { length (flat_map F.spelling items.now) < 2 ^ 32 }
    requires can { AllByRecursion F.CanPut items.now }
    ensures { result ≡ length (flat_map F.spelling items.now) }
{
    let mut total = 0;
    for item in items {
        total += F::byte_count(item);
    }
    total
}

/// Appends the items to a buffer that has room for them.
pub fn put_items<T, F: Field<T>>(out: &mut Vec<u8>, items: &[T])
    requires room { HasRoom out.old (flat_map F.spelling items.now) }
    requires can { AllByRecursion F.CanPut items.now }
    ensures appended { Appends out.old out.new (flat_map F.spelling items.now) }
    ensures has { AllByRecursion F.Has items.now }
{
    for item in items {
        F::put(out, item);
    }
}
