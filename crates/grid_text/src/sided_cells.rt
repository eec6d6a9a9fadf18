// The places and sides of the mixed cells of a grid.
ghost use Rattle.std.specs.Prelude.{◌≡◌, ◌<◌, ◌++◌, IfOk, OnOk, map};
ghost use Rattle.oct_descent.specs.Rows.{cells_in_layer, cells_in_row};
ghost use Rattle.view_places.specs.Window.{size_of};
ghost use Rattle.tetra_mesh.specs.Sides.{sided_of};
ghost use Rattle.grid_text.specs.Texts.{cells_of};

use kuhn_cells::CellValues;
use oct_descent::CellGrid;
use std::alloc::{AllocError, Global};
use tetra_mesh::SidedCell;

/// The places and sides of the mixed cells of a grid, by z, then by y, then by x. AllocError: there
/// is no memory for them.
pub fn sided_cells(alloc: Global, grid: &CellGrid) -> Result<Vec<SidedCell>, AllocError>
    ensures { IfOk result (λ sided. sided.items
        ≡ map sided_of (cells_of grid.now.view grid.now.list)) }
{
    let mut row = Vec::new(alloc);
    let mut sided = Vec::new(alloc);
    for z in 0..grid.n().z {
        push_layer(grid, z, &mut row, &mut sided)?;
    }
    Ok(sided)
}

// Adds those of layer z. The cells of one row at a time stand in `row`.
fn push_layer(
    grid: &CellGrid,
    z: u32,
    row: &mut Vec<CellValues>,
    sided: &mut Vec<SidedCell>,
) -> Result<(), AllocError>
    requires { z < (size_of grid.now.view).z }
    ensures { OnOk result (sided.new.items ≡ sided.old.items
        ++ map sided_of (cells_in_layer grid.now.view grid.now.list z)) }
{
    for y in 0..grid.n().y {
        row.clear();
        grid.push_row(y, z, row)?;
        push_sides(row, sided)?;
    }
    Ok(())
}

// Adds those of some cells.
fn push_sides(cells: &[CellValues], sided: &mut Vec<SidedCell>) -> Result<(), AllocError>
    ensures { OnOk result (sided.new.items ≡ sided.old.items ++ map sided_of cells.now) }
{
    for cell in cells {
        sided.push(SidedCell::new(cell))?;
    }
    Ok(())
}
