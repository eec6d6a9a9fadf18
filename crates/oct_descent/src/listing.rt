// The list of the mixed cells of a grid.
ghost use Rattle.std.specs.Prelude.{◌≡◌, ◌+◌, ◌%◌, ◌<◌, ◌++◌, min, IfOk, IsTrue, OnOk};
ghost use Rattle.kuhn_cells.specs.Cells.{cell_at, is_mixed_cell};
ghost use Rattle.kuhn_cells.specs.Lists.{ListsCells};
ghost use Rattle.kuhn_cells.specs.Sizes.{IsBounded};
ghost use Rattle.kuhn_cells.specs.Triangles.{point};
ghost use Rattle.view_places.specs.Window.{IsWindow, size_of};
ghost use Rattle.oct_descent.specs.GridValues.{list_grid};
ghost use Rattle.oct_descent.specs.Rows.{cells_at, cells_between, cells_in_layer, cells_in_row};

use crate::CellGrid;
use crate::corner_values::{corners, is_mixed};
use fixed_ops::Fx;
use kuhn_cells::{CellList, CellValues, GridSize};
use std::alloc::{AllocError, Global};
use view_places::View;

/// The cells of a grid that have both an inside and an outside corner, with the values of their
/// corners, by z, then by y, then by x. AllocError: there is no memory for them.
pub fn cell_list(alloc: Global, grid: &CellGrid) -> Result<CellList, AllocError>
    ensures { IfOk result (λ list. ListsCells (size_of grid.now.view) list
        (list_grid grid.now.view grid.now.list)) }
{
    let mut cells = Vec::new(alloc);
    let n = grid.n();
    for z in 0..n.z {
        grid.push_layer(z, &mut cells)?;
    }
    Ok(CellList {
        nx: n.x,
        ny: n.y,
        nz: n.z,
        cells,
    })
}

impl CellGrid {
    /// How many cells the grid has along each axis.
    #[inline]
    pub fn n(&self) -> GridSize
        ensures size { result ≡ size_of self.now.view }
        ensures bounded { IsBounded result }
        ensures window { IsWindow self.now.view }
    {
        self.view.grid()
    }

    /// The view.
    #[inline]
    pub fn view(&self) -> &View
        ensures { result.now ≡ self.now.view }
    {
        &self.view
    }

    /// The cell at a place, which is mixed.
    #[inline]
    pub fn cell(&self, x: u16, y: u16, z: u16) -> CellValues
        requires x { x < (size_of self.now.view).x }
        requires y { y < (size_of self.now.view).y }
        requires z { z < (size_of self.now.view).z }
        requires mixed { IsTrue (is_mixed_cell
            (cell_at (list_grid self.now.view self.now.list) (point x y z))) }
        ensures { result ≡ cell_at (list_grid self.now.view self.now.list) (point x y z) }
    {
        // All corners of a mixed cell are known.
        let known = corners(&self.values, u32::from(x), u32::from(y), u32::from(z));
        let values = known.unwrap_or([Fx::from_raw(0); 8]);
        CellValues { x, y, z, values }
    }

    // Adds the mixed cells of layer z.
    fn push_layer(&self, z: u32, cells: &mut Vec<CellValues>) -> Result<(), AllocError>
        requires { z < (size_of self.now.view).z }
        ensures { OnOk result (cells.new.items ≡ cells.old.items ++ cells_in_layer self.now.view
            self.now.list z) }
    {
        for y in 0..self.n().y {
            self.push_row(y, z, cells)?;
        }
        Ok(())
    }

    /// Adds the mixed cells of row y of layer z, by x, with the values of their corners. AllocError:
    /// there is no memory for them.
    pub fn push_row(&self, y: u32, z: u32, cells: &mut Vec<CellValues>) -> Result<(), AllocError>
        requires y { y < (size_of self.now.view).y }
        requires z { z < (size_of self.now.view).z }
        ensures { OnOk result (cells.new.items ≡ cells.old.items ++ cells_in_row self.now.view
            self.now.list y z) }
    {
        for eighth in 0..(self.n().x + 7) / 8 {
            self.push_eight(eighth * 8, y, z, cells)?;
        }
        Ok(())
    }

    // Adds those of eight cells of a row that are mixed. None is where nothing is known of the brick
    // that has their lowest corners, nor where the lowest corner is not known.
    #[inline]
    fn push_eight(
        &self,
        first: u32,
        y: u32,
        z: u32,
        cells: &mut Vec<CellValues>,
    ) -> Result<(), AllocError>
        requires first { first < (size_of self.now.view).x }
        requires eighth { first % 8 ≡ 0 }
        requires y { y < (size_of self.now.view).y }
        requires z { z < (size_of self.now.view).z }
        ensures { OnOk result (cells.new.items ≡ cells.old.items ++ cells_between self.now.view
            self.now.list first (min (size_of self.now.view).x (first + 8)) y z) }
    {
        let Some(start) = self.values.row(first, y, z) else {
            return Ok(());
        };
        for x in first..self.n().x.min(first + 8) {
            if self.values.is_known(start, (x - first) as usize) {
                self.push_cell(x, y, z, cells)?;
            }
        }
        Ok(())
    }

    // Adds a cell where it is mixed.
    #[inline]
    fn push_cell(
        &self,
        x: u32,
        y: u32,
        z: u32,
        cells: &mut Vec<CellValues>,
    ) -> Result<(), AllocError>
        requires x { x < (size_of self.now.view).x }
        requires y { y < (size_of self.now.view).y }
        requires z { z < (size_of self.now.view).z }
        ensures { OnOk result (cells.new.items ≡ cells.old.items ++ cells_at self.now.view
            self.now.list (point x y z)) }
    {
        let Some(values) = corners(&self.values, x, y, z) else {
            return Ok(());
        };
        if is_mixed(&values) {
            let (x, y, z) = (x as u16, y as u16, z as u16);
            cells.push(CellValues { x, y, z, values })?;
        }
        Ok(())
    }
}
