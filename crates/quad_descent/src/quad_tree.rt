// Images that are drawn anew.
ghost use Rattle.std.specs.Prelude.{◌≡◌};

use crate::Picture;
use box_chains::Desk;
use live_clauses::Tape;
use std::marker::Model;
use view_places::View;

/// An image of a list of steps over a view, with the lists that its boxes hand on, so that it can be
/// drawn anew of another list. Contracts see the view and the list.
#[derive(Debug, Drop)]
pub struct QuadTree {
    pub(crate) picture: Picture,
    // For each node the list that its box hands on to its halves, and none where it has no halves.
    pub(crate) lists: Vec<Option<Tape>>,
    // What looking into its boxes took, whose memory serves the next drawing.
    pub(crate) desk: Desk,
}

impl Model for QuadTree {
    ghost use Rattle.std.specs.Prelude.{◌≡◌};
    ghost use Rattle.view_places.specs.declared.lattice.Lattice.TheVariants.{Raster};
    ghost use Rattle.quad_descent.specs.KeptLists.{lists_of};
    ghost use Rattle.quad_descent.specs.Raster.{Drawing, raster, raster_root};

    ghost Value = { Drawing };

    ghost view = { λ t. t.picture };

    ghost invariant = { λ t. (t.lists.items
        ≡ lists_of (raster t.picture.view) (raster_root t.picture.view t.picture.list))
        × (t.desk.view ≡ t.picture.view) × (t.desk.lattice ≡ Raster) };
}

impl QuadTree {
    /// The image without the lists.
    #[inline]
    pub fn picture(&self) -> &Picture
        ensures { result.now ≡ self.now }
    {
        &self.picture
    }

    /// The list that it was drawn of.
    #[inline]
    pub fn list(&self) -> &Tape
        ensures { result.now ≡ self.now.list }
    {
        let picture = self.picture();
        &picture.list
    }

    /// The view that it was drawn over.
    #[inline]
    pub fn view(&self) -> &View
        ensures { result.now ≡ self.now.view }
    {
        let picture = self.picture();
        &picture.view
    }
}
