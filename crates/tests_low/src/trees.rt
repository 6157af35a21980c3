//! A tree that holds itself in each way that the warehouse's trees do.
ghost use Rattle.std.specs.Prelude.{◌≡◌, IfOk};

use hv_base::{Boxed, Duplicate, List, NoMemory, Text};
use std::alloc::Global;

#[derive(Debug, Drop)]
enum Tree {
    Leaf(Text),
    Node(List<Tree>),
    Pair(Boxed<Tree>, Boxed<Tree>),
}

impl Duplicate for Tree {
    #[cycle(trees)]
    fn duplicate(&self, alloc: Global) -> Result<Tree, NoMemory> {
        match self {
            Tree::Leaf(text) => Ok(Tree::Leaf(text.duplicate(alloc)?)),
            Tree::Node(children) => Ok(Tree::Node(duplicates(alloc, children.as_slice())?)),
            Tree::Pair(left, right) => {
                let left = Boxed::new(alloc, left.get().duplicate(alloc)?)?;
                let right = Boxed::new(alloc, right.get().duplicate(alloc)?)?;
                Ok(Tree::Pair(left, right))
            }
        }
    }
}

#[cycle(trees)]
fn duplicates(alloc: Global, trees: &[Tree]) -> Result<List<Tree>, NoMemory>
    ensures { IfOk result (λ copy. copy ≡ trees.now) }
{
    let mut copy = Vec::with_capacity(alloc, trees.len())?;
    for tree in trees {
        copy.push(tree.duplicate(alloc)?)?;
    }
    Ok(List::from_vec(copy))
}

fn leaf(alloc: Global, text: &str) -> Result<Tree, NoMemory> {
    Ok(Tree::Leaf(Text::of(alloc, text)?))
}

fn pair(alloc: Global) -> Result<Tree, NoMemory> {
    let children = vec![in alloc; leaf(alloc, "a")?, leaf(alloc, "b")?]?;
    let left = Boxed::new(alloc, Tree::Node(List::from_vec(children)))?;
    let right = Boxed::new(alloc, leaf(alloc, "z")?)?;
    Ok(Tree::Pair(left, right))
}

/// Shows the copy of a tree.
pub fn copy(alloc: Global, out: &mut String) -> Result<(), NoMemory> {
    let tree = pair(alloc)?;
    let copy = tree.duplicate(alloc)?;
    Ok(write!(out, "{copy:?}")?)
}
