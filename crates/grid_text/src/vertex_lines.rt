// The lines of the vertices of cells.
ghost use Rattle.std.specs.Prelude.{◌≡◌, ◌+◌, ◌*◌, ◌<◌, ◌≤◌, ◌++◌, [], List, drop, flat_map, length, map, take};
ghost use Rattle.kuhn_cells.specs.declared.cell_list.CellValues.{CellValues};
ghost use Rattle.ply_writer.specs.Ply.{vertex_line};
ghost use Rattle.tetra_mesh.specs.Numbering.{vertices_on};
ghost use Rattle.tetra_mesh.specs.Sides.{sided_of};
ghost use Rattle.grid_text.specs.Texts.{AreCellsOf};

use oct_descent::CellGrid;
use ply_writer::{BLOCK, PlyBlock, VERTEX_LINE};
use tetra_mesh::{SidedCell, cell_vertices};

// How many vertices a block has room for.
const VERTICES: usize = BLOCK / VERTEX_LINE;

// The most vertices that a cell has.
const MOST: usize = 7;

/// Makes the lines of the vertices of the next cells behind the first ones, as many as a block has
/// room for, and says how many cells come before the others then.
pub fn put_vertices(
    grid: &CellGrid,
    sided: &[SidedCell],
    lined: usize,
    block: &mut PlyBlock,
) -> usize
    requires cells { (cells : List CellValues)
        × AreCellsOf grid.now.view grid.now.list cells sided.now }
    requires within { lined ≤ length sided.now }
    requires view { block.old.view ≡ grid.now.view }
    requires room { block.old.room ≡ BLOCK }
    requires none { block.old.bytes ≡ [] }
    ensures view { block.new.view ≡ block.old.view }
    ensures within { result ≤ length sided.now }
    ensures lines { (cells : List CellValues)
        → AreCellsOf grid.now.view grid.now.list cells sided.now
        → flat_map (vertex_line grid.now.view) (flat_map vertices_on (drop lined cells))
        ≡ block.new.bytes
        ++ flat_map (vertex_line grid.now.view) (flat_map vertices_on (drop result cells)) }
    ensures full { result < length sided.now → 0 < length block.new.bytes }
{
    let next = &sided[lined..];
    let count = batch(next);
    put_lines(grid, &next[..count], block);
    lined + count
}

// How many of the first of some cells have no more vertices than a block has room for.
fn batch(sided: &[SidedCell]) -> usize
    ensures within { result ≤ length sided.now }
    ensures few { (cells : List CellValues) → sided.now ≡ map sided_of cells
        → VERTEX_LINE * length (flat_map vertices_on (take result cells)) ≤ BLOCK }
    ensures full { (cells : List CellValues) → sided.now ≡ map sided_of cells
        → result < length sided.now → 0 < length (flat_map vertices_on (take result cells)) }
{
    let mut vertices = 0;
    let mut count = 0;
    while count < sided.len() && vertices + MOST <= VERTICES {
        vertices += sided[count].vertices();
        count += 1;
    }
    count
}

// Puts the lines of the vertices of cells before a piece.
fn put_lines(grid: &CellGrid, sided: &[SidedCell], block: &mut PlyBlock)
    requires cells { (cells : List CellValues)
        × AreCellsOf grid.now.view grid.now.list cells sided.now }
    requires view { block.old.view ≡ grid.now.view }
    requires room { (cells : List CellValues)
        → AreCellsOf grid.now.view grid.now.list cells sided.now
        → VERTEX_LINE * length (flat_map vertices_on cells) ≤ block.old.room }
    ensures view { block.new.view ≡ block.old.view }
    ensures lines { (cells : List CellValues)
        → AreCellsOf grid.now.view grid.now.list cells sided.now → block.new.bytes
        ≡ flat_map (vertex_line grid.now.view) (flat_map vertices_on cells) ++ block.old.bytes }
    ensures more { (cells : List CellValues)
        → AreCellsOf grid.now.view grid.now.list cells sided.now
        → length block.old.bytes + length (flat_map vertices_on cells) ≤ length block.new.bytes }
{
    for i in (0..sided.len()).rev() {
        let cell = grid.cell(sided[i].x, sided[i].y, sided[i].z);
        block.put_vertices(cell_vertices(&cell).as_slice());
    }
}
