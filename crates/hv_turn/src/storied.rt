ghost use Rattle.std.specs.Prelude.{◌≡◌, List, length};
ghost use mathlib.Core.List.{IsPrefix};

/// A value that keeps a list of items, to which items are added at the end, and a root, which never changes.
pub trait Storied {
    /// What the list is of.
    type Item;

    /// What never changes. Proofs alone see it.
    type Root;

    // The items, in order.
    ghost items: { Self → List Self.Item };

    ghost root: { Self → Self.Root };

    // The second value goes on from the first.
    ghost later: { Self → Self → Type 0 };

    // What holds of the value whenever nobody has the turn.
    ghost keeps: { Self → Type 0 };

    /// How many items there are.
    fn length(&self) -> u64
        ensures { result ≡ length (items self.now) };

    ghost reflexive: { (x : Self) → later x x };

    ghost transitive: { (x y z : Self) → later x y → later y z → later x z };

    ghost same_root: { (x y : Self) → later x y → root x ≡ root y };

    ghost begins: { (x y : Self) → later x y → IsPrefix (items x) (items y) };
}
