// The triangles of cells by which of their corners are inside.
ghost use Rattle.std.specs.Prelude.{◌≡◌, ℕ, ◌≤◌, IfOk, OnOk, length, slice_index_or};
ghost use Rattle.tetra_mesh.specs.Edges.{HasTriangles};
ghost use Rattle.tetra_mesh.specs.Shapes.{AreMade, AreShapes, IsMade, shape_of};

use crate::ranks::ranks;
use crate::shape::Shape;
use crate::sided_cell::SidedCell;
use kuhn_cells::{Triple, triangles};
use std::alloc::{AllocError, Global};

// The triangles of the cell at the origin, for the signs that some cells have, and what the numbers
// of their vertices are looked up by.
#[derive(Debug, Drop)]
pub(crate) struct Shapes {
    // For all signs: one more than the place of the shape, and 0 where no cell has them.
    places: Vec<usize>,
    shapes: Vec<Shape>,
    pub(crate) ranks: Vec<u8>,
}

impl Shapes {
    // None of them. AllocError: there is no memory for the tables that all need.
    pub(crate) fn none(alloc: Global) -> Result<Shapes, AllocError>
        ensures { IfOk result AreMade }
    {
        Ok(Shapes {
            places: vec![in alloc; 0; 256]?,
            shapes: Vec::new(alloc),
            ranks: ranks(alloc)?,
        })
    }

    // Those of these cells too. AllocError: there is no memory for them, and all are given up.
    pub(crate) fn with(self, alloc: Global, sided: &[SidedCell]) -> Result<Shapes, AllocError>
        requires { AreMade self }
        ensures { IfOk result (AreShapes sided.now) }
    {
        let mut shapes = self;
        let mut triples = Vec::new(alloc);
        for cell in sided {
            shapes.make(cell.signs, &mut triples)?;
        }
        Ok(shapes)
    }

    // Makes the triangles for these signs, where they are not made. AllocError: there is no memory for
    // them.
    #[inline]
    fn make(&mut self, signs: u8, triples: &mut Vec<Triple>) -> Result<(), AllocError>
        requires { AreMade self.old }
        ensures made { OnOk result (AreMade self.new) }
        ensures this { OnOk result (IsMade self.new signs) }
        ensures others { OnOk result ((other : ℕ) → IsMade self.old other → IsMade self.new other) }
    {
        if self.places[usize::from(signs)] > 0 {
            return Ok(());
        }
        self.add(signs, triples)
    }

    // Makes the triangles for these signs, which are not made. AllocError: there is no memory for them.
    fn add(&mut self, signs: u8, triples: &mut Vec<Triple>) -> Result<(), AllocError>
        requires made { AreMade self.old }
        requires none { slice_index_or self.old.places.items signs 0 ≡ 0 }
        ensures made { OnOk result (AreMade self.new) }
        ensures this { OnOk result (IsMade self.new signs) }
        ensures others { OnOk result ((other : ℕ) → IsMade self.old other → IsMade self.new other) }
    {
        put_triples(signs, triples)?;
        self.shapes.push(Shape::new(triples))?;
        self.places[usize::from(signs)] = self.shapes.len();
        Ok(())
    }

    // The triangles of the cell at the origin with these signs.
    #[inline]
    pub(crate) fn shape(&self, signs: u8) -> &Shape
        requires made { AreMade self.now }
        requires this { IsMade self.now signs }
        ensures triangles { HasTriangles (shape_of signs) result.now }
        ensures few { length (shape_of signs) ≤ 12 }
    {
        &self.shapes[self.places[usize::from(signs)] - 1]
    }
}

// Puts the triangles of the cell at the origin with these signs in place of what stands there.
// AllocError: there is no memory for them.
fn put_triples(signs: u8, triples: &mut Vec<Triple>) -> Result<(), AllocError>
    ensures { OnOk result (triples.new.items ≡ shape_of signs) }
{
    triples.clear();
    for tetra in 0..6 {
        triples.extend_from_slice(triangles(0, 0, 0, tetra, signs).as_slice())?;
    }
    Ok(())
}
