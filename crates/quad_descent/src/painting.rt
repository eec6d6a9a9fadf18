// Rows of pixels, painted from the nodes of a tree.
ghost use Rattle.std.specs.Prelude.{◌≡◌, ◌+◌, ◌-◌, ◌≤◌, ◌<◌, ◌%◌, ◌/◌, ◌++◌, nat_lt, List, length, IsTrue, Some, None, if◌then◌else◌};
ghost use Rattle.box_chains.specs.Chains.{is_long};
ghost use Rattle.view_places.specs.Boxes.{Indices, halves_of, halves_x, middle as middle_of};
ghost use Rattle.quad_descent.specs.Drawn.{AreDrawnAt, IsDrawnAt};
ghost use Rattle.quad_descent.specs.Painting.{IsBand, Paints, byte_at, covers, meets};
ghost use Rattle.quad_descent.specs.Pixels.{rows_from};

use crate::band::Band;
use crate::node::Node;
use crate::{Picture, QuadTree};
use box_chains::LEAF;
use view_places::{IndexBox, Lattice, View, root};

/// Paints the rows of an image from `row` on, as many as there are places for. They are the bytes of
/// the pixels that evaluating the whole list at each sample gives.
pub fn rows(tree: &QuadTree, row: u32, pixels: &mut [u8])
    requires whole { length pixels.old % tree.now.view.w ≡ 0 }
    requires within { row + length pixels.old / tree.now.view.w ≤ tree.now.view.h }
    ensures { pixels.new ≡ rows_from tree.now.view tree.now.list row
        (length pixels.old / tree.now.view.w) }
{
    tree.picture().rows(row, pixels);
}

impl Picture {
    /// The view that it was drawn over.
    #[inline]
    pub fn view(&self) -> &View
        ensures { result.now ≡ self.now.view }
    {
        &self.view
    }

    /// Paints the rows of the image from `row` on, as many as there are places for. They are the bytes
    /// of the pixels that evaluating the whole list at each sample gives.
    pub fn rows(&self, row: u32, pixels: &mut [u8])
        requires whole { length pixels.old % self.now.view.w ≡ 0 }
        requires within { row + length pixels.old / self.now.view.w ≤ self.now.view.h }
        ensures { pixels.new ≡ rows_from self.now.view self.now.list row
            (length pixels.old / self.now.view.w) }
    {
        let rows = (pixels.len() / self.view.w as usize) as u32;
        let band = Band { row, rows };
        let image = root(&self.view, Lattice::Raster);
        if !band.meets(image) {
            return;
        }
        self.paint_box(0, image, band, pixels);
    }

    // Paints the samples of a box, whose node stands at a place, in a band of rows.
    #[cycle(painting)]
    fn paint_box(&self, at: usize, b: IndexBox, band: Band, pixels: &mut [u8])
        requires drawn { IsDrawnAt self.now.view self.now.list at b }
        requires band { IsBand self.now.view band (length pixels.old) }
        requires meets { IsTrue (meets band b) }
        ensures { Paints (covers self.now.view.w band.row b)
            (byte_at self.now.view self.now.list band.row) pixels.old pixels.new }
    {
        match &self.nodes[at] {
            Node::Outside => self.fill_box(b, 0, band, pixels),
            Node::Inside => self.fill_box(b, 255, band, pixels),
            Node::Leaf(rows) => self.paint_leaf(rows, b, band, pixels),
            Node::Split(_) => self.paint_halves(at + 1, b, band, pixels),
        }
    }

    // Paints the halves of a box that is split, the first of whose nodes stands at a place: those in its
    // upper rows, and then those in its lower ones. No list of them is made, and those without a row of
    // the band are passed together, since a band has few rows and each band is painted from the root on.
    #[cycle(painting)]
    fn paint_halves(&self, first: usize, b: IndexBox, band: Band, pixels: &mut [u8])
        requires drawn { AreDrawnAt self.now.view self.now.list first b (halves_of 8 b) }
        requires long { IsTrue (is_long 8 b) }
        requires band { IsBand self.now.view band (length pixels.old) }
        ensures { Paints (covers self.now.view.w band.row b)
            (byte_at self.now.view self.now.list band.row) pixels.old pixels.new }
    {
        match middle(b.y0, b.y1) {
            Some(y) => {
                let upper = IndexBox { y1: y, ..b };
                let lower = IndexBox { y0: y, ..b };
                self.paint_columns(first, upper, band, pixels);
                self.paint_columns(self.behind(first, upper), lower, band, pixels);
            }
            None => self.paint_columns(first, b, band, pixels),
        }
    }

    // Paints the halves by columns of some rows of a box, the first of whose nodes stands at a place.
    #[cycle(painting)]
    #[inline]
    fn paint_columns(&self, first: usize, rows: IndexBox, band: Band, pixels: &mut [u8])
        requires drawn { AreDrawnAt self.now.view self.now.list first rows (halves_x 8 rows) }
        requires band { IsBand self.now.view band (length pixels.old) }
        ensures { Paints (covers self.now.view.w band.row rows)
            (byte_at self.now.view self.now.list band.row) pixels.old pixels.new }
    {
        if !band.meets(rows) {
            return;
        }
        match middle(rows.x0, rows.x1) {
            Some(x) => {
                let left = IndexBox { x1: x, ..rows };
                let right = IndexBox { x0: x, ..rows };
                self.paint_box(first, left, band, pixels);
                let next = first + self.nodes[first].count();
                self.paint_box(next, right, band, pixels);
            }
            None => self.paint_box(first, rows, band, pixels),
        }
    }

    // Where the node stands that comes behind those of the halves by columns of some rows of a box.
    #[inline]
    fn behind(&self, first: usize, rows: IndexBox) -> usize
        requires { AreDrawnAt self.now.view self.now.list first rows (halves_x 8 rows) }
        ensures { (b : Indices) → (others : List Indices)
            → AreDrawnAt self.now.view self.now.list first b (halves_x 8 rows ++ others)
            → AreDrawnAt self.now.view self.now.list result b others }
    {
        let next = first + self.nodes[first].count();
        match middle(rows.x0, rows.x1) {
            Some(_) => next + self.nodes[next].count(),
            None => next,
        }
    }
}

// Where the upper half of a side begins, and None where the side is not longer than a leaf's.
#[inline]
fn middle(low: u32, high: u32) -> Option<u32>
    requires { low < high }
    ensures { result ≡ (if nat_lt 8 (high - low) then Some (middle_of low high) else None) }
{
    let len = high - low;
    if len > LEAF {
        Some(high - len / 2)
    } else {
        None
    }
}
