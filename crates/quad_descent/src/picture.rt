// An image by boxes.

use crate::node::Node;
use live_clauses::Tape;
use std::marker::Model;
use view_places::View;

/// An image of a list of steps over a view, by boxes: which of them are decided, and what the samples
/// of undecided leaves are. Contracts see the view and the list.
#[derive(Debug, Drop)]
pub struct Picture {
    pub(crate) view: View,
    pub(crate) list: Tape,
    pub(crate) nodes: Vec<Node>,
}

impl Model for Picture {
    ghost use Rattle.std.specs.Prelude.{◌≡◌};
    ghost use Rattle.box_chains.specs.Visits.{IsVisit};
    ghost use Rattle.quad_descent.specs.Nodes.{nodes_of};
    ghost use Rattle.quad_descent.specs.Raster.{Drawing, raster, raster_root};

    ghost Value = { Drawing };

    ghost view = { λ t. record { view = t.view; list = t.list } };

    ghost invariant = { λ t. (t.nodes.items ≡ nodes_of (raster t.view) (raster_root t.view t.list))
        × IsVisit (raster t.view) (raster_root t.view t.list) };
}
