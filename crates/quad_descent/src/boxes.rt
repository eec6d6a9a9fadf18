// Boxes that are drawn, one after another.
ghost use Rattle.std.specs.Prelude.{◌≡◌, ◌<◌, ◌∷◌, [], None, Some, length, IfOk, OnOk};
ghost use Rattle.live_clauses.specs.Blocks.{list_at};

use crate::node::Node;
use live_clauses::{Lists, Tape};
use std::alloc::{AllocError, Global};

/// What is kept of boxes that are drawn, one after another.
#[derive(Debug, Drop)]
pub struct Boxes {
    /// Their nodes.
    pub nodes: Vec<Node>,
    /// For each node the list that its box hands on to its halves, where lists are kept.
    pub lists: Vec<Option<Tape>>,
    /// Whether lists are kept.
    pub keeps: bool,
    /// The list that the boxes receive which are drawn next, where lists are kept: one that hands on an
    /// equal list shares it.
    pub received: Option<Tape>,
}

impl Boxes {
    ghost use Rattle.std.specs.Prelude.{◌≡◌, ◌<◌, ◌∷◌, [], None, Some, length, IfOk, OnOk};
    ghost use Rattle.live_clauses.specs.Blocks.{list_at};
    ghost use Rattle.quad_descent.specs.Adding.{Adds};
    ghost use Rattle.quad_descent.specs.declared.node.Node.TheVariants.{Split};

    /// No boxes, with memory for so many. The first of them receives a list. AllocError: there is no
    /// memory for them, or to share the list.
    pub fn new(alloc: Global, list: &Tape, keeps: bool, room: usize) -> Result<Boxes, AllocError>
        ensures nodes { IfOk result (λ boxes. boxes.nodes.items ≡ []) }
        ensures lists { IfOk result (λ boxes. boxes.lists.items ≡ []) }
        ensures keeps { IfOk result (λ boxes. boxes.keeps ≡ keeps) }
    {
        let received = if keeps { Some(list.share()?) } else { None };
        let kept = if keeps { room } else { 0 };
        Ok(Boxes {
            nodes: Vec::with_capacity(alloc, room)?,
            lists: Vec::with_capacity(alloc, kept)?,
            keeps,
            received,
        })
    }

    /// Adds a box that hands no list on. AllocError: there is no memory for it.
    #[inline]
    pub fn push(&mut self, node: Node) -> Result<(), AllocError>
        ensures { OnOk result (Adds self.old self.new (node ∷ []) (None ∷ [])) }
    {
        if self.keeps {
            self.lists.push(None)?;
        }
        Ok(self.nodes.push(node)?)
    }

    /// Adds a box that is split and hands on the list of a number: so far no node stands below it. Its
    /// halves are drawn next. Gives what the box received. AllocError: there is no memory for it.
    pub fn push_split(&mut self, lists: &Lists, live: usize) -> Result<Option<Tape>, AllocError>
        requires { live < length lists.now }
        ensures { OnOk result (Adds self.old self.new (Split 0 ∷ [])
            (Some (list_at lists.now live) ∷ [])) }
    {
        self.nodes.push(Node::Split(0))?;
        if !self.keeps {
            return Ok(None);
        }
        let kept = keep(lists, live, &self.received)?;
        let above = self.received.replace(kept.share()?);
        self.lists.push(Some(kept))?;
        Ok(above)
    }
}

// The list of a number, in memory of its own: that of an equal list, where it is this one. AllocError:
// there is no memory for it.
fn keep(lists: &Lists, at: usize, equal: &Option<Tape>) -> Result<Tape, AllocError>
    requires { at < length lists.now }
    ensures { IfOk result (λ tape. tape ≡ list_at lists.now at) }
{
    match equal {
        Some(tape) if tape.steps().same(&lists.list(at)) => tape.share(),
        _ => lists.keep(at),
    }
}
