ghost use Rattle.std.specs.Prelude.{◌≡◌, ◌≢◌, ◌↔◌, ◌+◌, ◌<◌, ◌≤◌, ℕ, List, [], ◌∷◌, ◌++◌, length, slice_get, IfOk, IfErr, OnOk, OnErr, IfSome, IsTrue, Err, vec_len, vec_capacity};
ghost use Rattle.std.specs.Option.{ForSome, option_map};
ghost use Rattle.te_terms.specs.declared.code.Node.{Node};
ghost use Rattle.te_terms.specs.declared.code.Node.TheVariants as nodes;
ghost use Rattle.te_terms.specs.declared.code.CodeFault.TheVariants as faults;
ghost use Rattle.te_terms.specs.Codes.{term_under};
ghost use Rattle.te_terms.specs.Measures.{height, counts_of};
ghost use Rattle.te_terms.specs.Limits.{most_nodes, greatest_height, most_fresh, IsWithinLimits};
ghost use Rattle.te_terms.specs.Shape.{children, times_named, one_if_fresh, fresh_nodes, NamesEarlier, IsForest, HasFreeChildren, term_over};
ghost use Rattle.te_terms.specs.Views.{node_seen, IsShortNode};
ghost use Rattle.te_terms.specs.Kept.{MarkTells, TellsNew, IsLow, IsKept, IsFree, listed, own_weighing, adopted};

use crate::expr::{Calc, Cond, Expr, Operand};
use crate::lent::NodeView;
use crate::limits::{GREATEST_HEIGHT, MOST_FRESH, MOST_NODES};
use crate::slot::{Form, Slot, store};
use std::alloc::Global;
use std::marker::Model;
use thiserror::Error;

/// One node of an event, with its children by their numbers.
#[derive(Clone, Copy, Debug, PartialEq, Eq)]
pub enum Node {
    /// Gives the expression's value.
    Always(Expr),
    /// Has no step.
    Never,
    /// Raises the expression's value.
    Throw(Expr),
    /// Sends the expression's value on the channel that the primitive names.
    Send(Operand, Expr),
    /// Receives on the channel that the primitive names.
    Recv(Operand),
    /// The first part, and then the second, one level up, with what the first gave.
    Then(u32, u32),
    /// One of two parts.
    Choose(u32, u32),
    /// The first part; where it raises, then the second, one level up, with what was raised.
    Catch(u32, u32),
    /// The first part where the condition holds, else the second.
    If(Cond, u32, u32),
    /// Gives a new channel, whose number is made of the thread, its ticket and a count.
    Fresh,
}

impl Node {
    pub(crate) fn children(&self) -> Option<(u32, u32)>
        ensures { listed result ≡ children self.now }
    {
        match self {
            Node::Then(a, b) | Node::Choose(a, b) | Node::Catch(a, b) | Node::If(_, a, b) => Some((
                *a, *b,
            )),
            Node::Always(_)
            | Node::Never
            | Node::Throw(_)
            | Node::Send(_, _)
            | Node::Recv(_)
            | Node::Fresh => None,
        }
    }

    // 1 for a choice, else 0.
    fn own_choices(&self) -> u16
        ensures { result ≡ own_weighing 1 0 0 self.now }
    {
        match self {
            Node::Choose(_, _) => 1,
            _ => 0,
        }
    }

    // 1 for a send, else 0.
    fn own_sends(&self) -> u16
        ensures { result ≡ own_weighing 0 1 0 self.now }
    {
        match self {
            Node::Send(_, _) => 1,
            _ => 0,
        }
    }

    // 1 for a receive, else 0.
    fn own_receives(&self) -> u16
        ensures { result ≡ own_weighing 0 0 1 self.now }
    {
        match self {
            Node::Recv(_) => 1,
            _ => 0,
        }
    }

    // 1 for a node that makes a channel, else 0.
    fn own_fresh(&self) -> u8
        ensures { result ≡ one_if_fresh self.now }
    {
        match self {
            Node::Fresh => 1,
            _ => 0,
        }
    }
}

/// Why a node wasn't taken.
#[derive(Clone, Copy, Debug, PartialEq, Eq, Error)]
pub enum CodeFault {
    /// A child is no earlier node, has a parent already, or is named twice.
    #[error("a child is no earlier node, has a parent already, or is named twice")]
    Child,
    /// There are 4,096 nodes.
    #[error("there are 4,096 nodes already")]
    Full,
    /// The node's height would pass 32; a leaf has height 1.
    #[error("the height would pass 32")]
    Depth,
    /// There was no memory.
    #[error("out of memory")]
    Memory,
    /// There are 16 nodes that make a channel.
    #[error("there are 16 fresh nodes already")]
    Fresh,
}

/// The numbers of choose, send and receive nodes of an event. Their sum is its weight. Counting them is this
/// project's own.
#[derive(Clone, Copy, Debug, PartialEq, Eq)]
pub struct Counts {
    /// The choose nodes, 0 to 4,096.
    pub choices: u32,
    /// The send nodes, 0 to 4,096.
    pub sends: u32,
    /// The receive nodes, 0 to 4,096.
    pub receives: u32,
}

// What is kept of a node: the sizes of the term under it, and whether it has a parent.
#[derive(Clone, Copy, Drop)]
struct Mark {
    nodes: u16,
    choices: u16,
    sends: u16,
    receives: u16,
    height: u8,
    fresh: u8,
    is_child: bool,
}

/// The nodes of events, seen as the list of them. Children are earlier nodes, each the child of at most
/// one; heights are at most 32, and there are at most 4,096 nodes, 16 of which make a channel. The limits
/// are this project's own.
#[derive(Drop)]
pub struct EventCode {
    // Each node but for its calculations, which stand in one list.
    slots: Vec<Slot>,
    calcs: Vec<Calc>,
    marks: Vec<Mark>,
    fresh: u8,
}

impl Model for EventCode {
    ghost use Rattle.std.specs.Prelude.{List};
    ghost use Rattle.te_terms.specs.declared.code.Node.{Node};
    ghost use Rattle.te_terms.specs.Slots.{nodes_of, IsCode};

    ghost Value = { List Node };

    ghost view = { λ c. nodes_of c.slots.items c.calcs.items };

    ghost invariant = { λ c. IsCode c.slots.items c.calcs.items c.marks.items c.fresh };
}

impl EventCode {
    /// The code without a node. It takes no memory.
    pub fn new(alloc: Global) -> EventCode
        ensures { result ≡ [] }
    {
        EventCode {
            slots: Vec::new(alloc),
            calcs: Vec::new(alloc),
            marks: Vec::new(alloc),
            fresh: 0,
        }
    }

    /// The number of nodes.
    pub fn len(&self) -> u32
        ensures value { result ≡ length self.now }
        ensures forest { IsForest self.now }
    {
        self.slots.len() as u32
    }

    /// Node `i`, from 0; `None` exactly where there is no such node.
    pub fn node(&self, i: u32) -> Option<Node>
        ensures value { result ≡ slice_get self.now i }
        ensures earlier { IfSome result (λ node. NamesEarlier i node) }
        ensures forest { IsForest self.now }
    {
        match self.look(i) {
            Some(view) => Some(view.node()),
            None => None,
        }
    }

    /// Node `i`, from 0, with its calculations where the code keeps them; `None` exactly where there is no such
    /// node. It is public for the crates above alone.
    #[doc(hidden)]
    #[inline(always)]
    pub fn look(&self, i: u32) -> Option<NodeView<'_>>
        ensures value { option_map node_seen result ≡ slice_get self.now i }
        ensures short { IfSome result IsShortNode }
        ensures earlier { IfSome result (λ view. NamesEarlier i (node_seen view)) }
        ensures forest { IsForest self.now }
    {
        match self.slots.get(i as usize) {
            Some(slot) => Some(slot.lend(&self.calcs)),
            None => None,
        }
    }

    fn is_free(&self, i: u32) -> bool
        ensures { IsTrue result ↔ IsFree self.now i }
    {
        match self.marks.get(i as usize) {
            Some(mark) => !mark.is_child,
            None => false,
        }
    }

    fn are_free(&self, a: u32, b: u32) -> bool
        ensures { IsTrue result ↔ ((a ≢ b) × IsFree self.now a × IsFree self.now b) }
    {
        a != b && self.is_free(a) && self.is_free(b)
    }

    fn takes_children(&self, node: &Node) -> bool
        ensures { IsTrue result ↔ HasFreeChildren self.now node.now }
    {
        match node.children() {
            None => true,
            Some((a, b)) => self.are_free(a, b),
        }
    }

    // The counts of the term under node `i`, which keeps the limits of an event.
    pub(crate) fn counts(&self, i: u32) -> Counts
        requires { i < length self.now }
        ensures value { result ≡ counts_of (term_under self.now i) }
        ensures limits { IsWithinLimits (term_under self.now i) }
    {
        let mark = self.mark(i);
        Counts {
            choices: mark.choices as u32,
            sends: mark.sends as u32,
            receives: mark.receives as u32,
        }
    }

    fn mark(&self, i: u32) -> Mark
        requires { i < length self.now }
        ensures tells { MarkTells self.now i result }
        ensures low { IsLow result }
    {
        self.marks[i as usize]
    }

    // The mark of a node that isn't there yet.
    fn mark_over(&self, node: &Node) -> Mark
        requires { HasFreeChildren self.now node.now }
        ensures { TellsNew self.now node.now result }
    {
        match node.children() {
            None => Mark {
                nodes: 1,
                choices: node.own_choices(),
                sends: node.own_sends(),
                receives: node.own_receives(),
                height: 1,
                fresh: node.own_fresh(),
                is_child: false,
            },
            Some((a, b)) => {
                let first = self.mark(a);
                let second = self.mark(b);
                Mark {
                    nodes: 1 + (first.nodes + second.nodes),
                    choices: node.own_choices() + (first.choices + second.choices),
                    sends: node.own_sends() + (first.sends + second.sends),
                    receives: node.own_receives() + (first.receives + second.receives),
                    height: 1 + first.height.max(second.height),
                    fresh: node.own_fresh() + (first.fresh + second.fresh),
                    is_child: false,
                }
            }
        }
    }

    // Puts a node behind the others, and marks it and its children.
    fn append(&mut self, node: Node, mark: Mark) -> Result<u32, CodeFault>
        requires few { length self.old < most_nodes }
        requires free { HasFreeChildren self.old node }
        requires few_fresh { fresh_nodes self.old + one_if_fresh node ≤ most_fresh }
        requires low { height (term_over self.old node) ≤ greatest_height }
        requires told { TellsNew self.old node mark }
        ensures ok { IfOk result (λ number. (number ≡ length self.old) × (self.new ≡ self.old ++ node ∷ [])) }
        ensures memory { IfErr result (λ e. e ≡ faults.Memory) }
        ensures err { OnErr result (self.new ≡ self.old) }
    {
        let number = self.slots.len() as u32;
        let children = node.children();
        let fresh = self.fresh + node.own_fresh();
        let form = Form::of(&node);
        make_room(&mut self.marks, 1)?;
        make_room(&mut self.slots, 1)?;
        make_room(&mut self.calcs, form.needed())?;
        store(&mut self.slots, &mut self.calcs, &node, form);
        self.marks.push_reserved(mark);
        adopt(&mut self.marks, children);
        self.fresh = fresh;
        Ok(number)
    }

    /// Puts a node behind the others, and answers its number. It refuses, in this order, `Child` where a
    /// named child is no earlier node, has a parent already or is named twice, `Full` where there are
    /// 4,096 nodes, `Fresh` where the node is `Fresh` and there are 16 of them, `Depth` where the node's
    /// height would pass 32 (a leaf has height 1), and `Memory`. After a refusal the code is as before.
    pub fn push(&mut self, node: Node) -> Result<u32, CodeFault>
        ensures ok { IfOk result (λ number. (number ≡ length self.old) × (self.new ≡ self.old ++ node ∷ [])) }
        ensures child { (result ≡ Err faults.Child) ↔ ¬ HasFreeChildren self.old node }
        ensures full { (result ≡ Err faults.Full) ↔ (HasFreeChildren self.old node × (most_nodes ≤ length self.old)) }
        ensures fresh { (result ≡ Err faults.Fresh) ↔ (HasFreeChildren self.old node × (length self.old < most_nodes) × (node ≡ nodes.Fresh) × (most_fresh ≤ fresh_nodes self.old)) }
        ensures depth { (result ≡ Err faults.Depth) ↔ (HasFreeChildren self.old node × (length self.old < most_nodes) × (greatest_height < height (term_over self.old node))) }
        ensures err { OnErr result (self.new ≡ self.old) }
    {
        if !self.takes_children(&node) {
            return Err(CodeFault::Child);
        }
        if self.len() as usize >= MOST_NODES {
            return Err(CodeFault::Full);
        }
        if (self.fresh + node.own_fresh()) as u32 > MOST_FRESH {
            return Err(CodeFault::Fresh);
        }
        let mark = self.mark_over(&node);
        if mark.height as u32 > GREATEST_HEIGHT {
            return Err(CodeFault::Depth);
        }
        self.append(node, mark)
    }
}

// Makes room for so many more: at first for exactly these, since many codes have one node.
fn make_room<T>(list: &mut Vec<T>, more: usize) -> Result<(), CodeFault>
    ensures items { list.new.items ≡ list.old.items }
    ensures ok { OnOk result (vec_len list.new + more ≤ vec_capacity list.new) }
    ensures memory { IfErr result (λ e. e ≡ faults.Memory) }
{
    let made = if list.is_empty() {
        list.reserve_exact(more)
    } else {
        list.reserve(more)
    };
    match made {
        Ok(()) => Ok(()),
        Err(_) => Err(CodeFault::Memory),
    }
}

// Notes that these two have a parent.
fn adopt(marks: &mut Vec<Mark>, children: Option<(u32, u32)>)
    requires { ForSome children (λ p. (p.0 < length marks.old.items) × (p.1 < length marks.old.items)) }
    ensures { marks.new.items ≡ adopted (listed children) marks.old.items }
{
    if let Some((a, b)) = children {
        marks[a as usize].is_child = true;
        marks[b as usize].is_child = true;
    }
}
