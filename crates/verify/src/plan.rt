//! The derivation that the items of a proof spell.
//!
//! A plan of it is made first, by listening to the run: numbered nodes, each after its children, and
//! only once however often it is recalled. The plan is measured before the tree is made.

ghost use Rattle.std.specs.Prelude.{◌≡◌, ◌<◌, ◌≤◌, ◌↔◌, [], IsTrue, List, OnOk, IfOk, MatchOption};
ghost use Rattle.std.specs.Prelude.{Some, length, map, slice_get, ◌⊎◌};
ghost use Rattle.frame.specs.AtPosition.{HasLabelsOnce};
ghost use Rattle.mm_read.specs.declared.stmt.Stmt.{Stmt as Statement};
ghost use Rattle.verify.specs.Derivations.{Derivation, derivation_of};
ghost use Rattle.verify.specs.Extents.{extent_of};
ghost use Rattle.verify.specs.Plan.{AddsNode, AreOrdered, IsAfter, IsRightPlan, built, derive};
ghost use Rattle.verify.specs.Plan.{pick};
ghost use Rattle.verify.specs.Right.{Derives, IsProvable, IsRight, IsSmall, most_depth, most_nodes};

use crate::answer::TreeFault;
use crate::failure::{Outcome, run};
use crate::listener::Listener;
use crate::tree::Tree;
use frame::Frames;
use proof_code::Items;
use std::alloc::{AllocError, Global};
use subst::SymbolRange;

/// The largest number of nodes of a derivation that is returned.
pub const MAX_NODES: usize = 65_536;

/// The greatest depth of a derivation that is returned; a lone node has depth 1.
pub const MAX_DEPTH: usize = 1_024;

/// A node of a plan.
#[derive(Drop)]
pub enum Node {
    /// A hypothesis, by position.
    Hyp(usize),
    /// An assertion, by position, and the numbers of its children.
    Apply(usize, Vec<usize>),
}

/// The derivations of a proof so far, as nodes.
#[derive(Drop)]
pub struct TreePlan {
    /// The nodes, each after its children; the number of a node is its index.
    pub nodes: Vec<Node>,
    /// The numbers of the nodes on the stack.
    pub stack: Vec<usize>,
    /// The numbers of the nodes that were marked.
    pub saved: Vec<usize>,
}

impl TreePlan {
    /// Returns a plan without nodes.
    fn new(alloc: Global) -> TreePlan
        ensures { (result.nodes.items ≡ []) × (result.stack.items ≡ []) × (result.saved.items ≡ []) }
    {
        TreePlan {
            nodes: Vec::new(alloc),
            stack: Vec::new(alloc),
            saved: Vec::new(alloc),
        }
    }

    /// Appends a node, and pushes its number onto the stack.
    ///
    /// Errors: an allocation fails.
    fn add(&mut self, node: Node) -> Result<(), AllocError>
        ensures { OnOk result (AddsNode self.old self.new node) }
    {
        let number = self.nodes.len();
        self.nodes.push(node)?;
        self.stack.push(number)?;
        Ok(())
    }
}

impl Listener for TreePlan {
    ghost use Rattle.verify.specs.Plan.{IsPlanOf};

    ghost follows = { IsPlanOf };

    fn hypothesis(&mut self, position: usize, _range: SymbolRange) -> Result<(), AllocError> {
        self.add(Node::Hyp(position))
    }

    fn assertion(
        &mut self,
        position: usize,
        count: usize,
        _range: SymbolRange,
    ) -> Result<(), AllocError> {
        let keep = self.stack.len().saturating_sub(count);
        let children = self.stack.split_off(keep)?;
        self.add(Node::Apply(position, children))
    }

    fn mark(&mut self) -> Result<(), AllocError> {
        let len = self.stack.len();
        if len > 0 {
            let number = self.stack[len - 1];
            self.saved.push(number)?;
        }
        Ok(())
    }

    fn recall(&mut self, index: usize) -> Result<(), AllocError> {
        if index < self.saved.len() {
            let number = self.saved[index];
            self.stack.push(number)?;
        }
        Ok(())
    }
}

/// The number of nodes of a derivation and its depth, each counted no further than one above its
/// limit.
#[derive(Clone, Copy, Drop)]
pub struct Extent {
    /// The number of nodes.
    pub nodes: usize,
    /// The depth.
    pub depth: usize,
}

/// Returns the extent of the node with that number.
fn extent_with_number(extents: &[Extent], number: usize) -> Extent
    requires { number < length extents.now }
    ensures { slice_get extents.now number ≡ Some result }
{
    extents[number]
}

/// Returns the extent of a node, from those of earlier nodes.
fn node_extent(node: &Node, extents: &[Extent]) -> Extent
    requires after { IsAfter (length extents.now) node.now }
    requires measured { (ts : List Derivation) × (extents.now ≡ map extent_of ts) }
    ensures { (ts : List Derivation) → extents.now ≡ map extent_of ts → result ≡ extent_of (derive ts node.now) }
{
    let Node::Apply(_, children) = node else {
        return Extent { nodes: 1, depth: 1 };
    };
    let mut nodes = 1;
    let mut depth = 1;
    for child in children {
        let extent = extent_with_number(extents, *child);
        nodes = (nodes + extent.nodes).min(MAX_NODES + 1);
        depth = depth.max((extent.depth + 1).min(MAX_DEPTH + 1));
    }
    Extent { nodes, depth }
}

/// Returns the extent of the derivation of each node.
///
/// Errors: an allocation fails. Cost: a step for each child of each node.
pub fn measure(alloc: Global, nodes: &[Node]) -> Result<Vec<Extent>, AllocError>
    requires { AreOrdered 0 nodes.now }
    ensures { IfOk result (λ extents. extents.items ≡ map extent_of (built nodes.now)) }
{
    let mut extents = Vec::new(alloc);
    for node in nodes {
        let one = node_extent(node, &extents);
        extents.push(one)?;
    }
    Ok(extents)
}

/// Returns whether a derivation is within the limits.
pub fn is_small(extent: Extent) -> bool
    ensures { IsTrue result ↔ ((extent.nodes ≤ most_nodes) × (extent.depth ≤ most_depth)) }
{
    extent.nodes <= MAX_NODES && extent.depth <= MAX_DEPTH
}

/// Returns the derivation that the items of a right proof of the `$p` at that position spell.
///
/// Errors: `Wrong` if the items are not a right proof; `TooLarge` if the derivation has more than
/// 65,536 nodes or a depth above 1,024 (it is measured before it is made); `Memory` if an
/// allocation fails, even if one of the others applies.
/// Cost: a check, and the tree. Source: Metamath, 4.2.6 and appendix B.
pub fn derivation(
    alloc: Global,
    frames: &Frames,
    at: usize,
    items: &Items,
) -> Result<Tree, TreeFault>
    requires { (s : Statement) × IsProvable frames.now.statements at s }
    ensures tree { IfOk result (λ tree. Derives frames.now.statements at items.now (derivation_of tree)) }
    ensures small { IfOk result (λ tree. IsSmall (derivation_of tree)) }
    ensures wrong { ¬ IsRight frames.now.statements at items.now → (result ≡ Err TreeFault.Wrong)
        ⊎ (result ≡ Err TreeFault.Memory) }
    ensures only_wrong { result ≡ Err TreeFault.Wrong → ¬ IsRight frames.now.statements at items.now }
    ensures large { (t : Derivation) → Derives frames.now.statements at items.now t → ¬ IsSmall t
        → (result ≡ Err TreeFault.TooLarge) ⊎ (result ≡ Err TreeFault.Memory) }
    ensures only_large { result ≡ Err TreeFault.TooLarge → (t : Derivation)
        × Derives frames.now.statements at items.now t × (¬ IsSmall t) }
{
    let Some(plan) = plan_of(alloc, frames, at, items)? else {
        return Err(TreeFault::Wrong);
    };
    let root = plan.stack[0];
    let extents = measure(alloc, &plan.nodes)?;
    if !is_small(extents[root]) {
        return Err(TreeFault::TooLarge);
    }
    Ok(expand(alloc, &plan.nodes, root)?)
}

/// Returns the plan of the derivation that the items spell, or `None` if they are not a right proof.
fn plan_of(
    alloc: Global,
    frames: &Frames,
    at: usize,
    items: &Items,
) -> Result<Option<TreePlan>, AllocError>
    requires { (s : Statement) × IsProvable frames.now.statements at s }
    ensures once { HasLabelsOnce frames.now.statements }
    ensures planned { IfOk result
        (λ found. MatchOption found (¬ IsRight frames.now.statements at items.now)
        (IsRightPlan frames.now.statements at items.now)) }
{
    let mut plan = TreePlan::new(alloc);
    match run(alloc, frames, at, items, &mut plan)? {
        Outcome::Right(_) => Ok(Some(plan)),
        Outcome::Failed(_) => Ok(None),
    }
}

/// Returns the derivation with that number as a tree: a node that occurs in it several times is
/// copied each time.
///
/// Errors: an allocation fails. Cost: the nodes of the tree.
fn expand(alloc: Global, nodes: &[Node], number: usize) -> Result<Tree, AllocError>
    requires ordered { AreOrdered 0 nodes.now }
    requires there { number < length nodes.now }
    ensures { IfOk result (λ tree. derivation_of tree ≡ pick (built nodes.now) number) }
{
    match &nodes[number] {
        Node::Hyp(position) => Ok(Tree::Hyp(*position)),
        Node::Apply(position, children) => {
            let mut trees = Vec::with_capacity(alloc, children.len())?;
            for child in children {
                trees.push(expand(alloc, nodes, *child)?)?;
            }
            Ok(Tree::Apply(*position, trees))
        }
    }
}
