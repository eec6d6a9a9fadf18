// The text of the mesh of a grid.
ghost use Rattle.std.specs.Prelude.{◌≡◌, OnOk};
ghost use Rattle.grid_text.specs.Texts.{text_of};

use crate::{GridPieces, TextRoom};
use oct_descent::CellGrid;
use std::alloc::{AllocError, Global};

/// Makes the text of the mesh of a grid, the header, a line for each vertex and a line for each face, in
/// a buffer, in place of what stood there: a buffer that had room for it takes no memory of its own.
/// `room` is memory for making it, which is made where there is none. AllocError: there is no memory for
/// the text, what stands in the buffer is of no use, and the other memory is given up.
pub fn grid_text_in(
    alloc: Global,
    grid: &CellGrid,
    room: &mut Option<TextRoom>,
    buffer: &mut Vec<u8>,
) -> Result<(), AllocError>
    ensures { OnOk result (buffer.new.items ≡ text_of grid.now.view grid.now.list) }
{
    let memory = match room.take() {
        Some(memory) => memory,
        None => TextRoom::new(alloc, grid.view())?,
    };
    let mut pieces = GridPieces::over(alloc, grid, memory)?;
    buffer.clear();
    buffer.reserve(pieces.room())?;
    buffer.extend_from_slice(pieces.piece())?;
    while pieces.advance() {
        buffer.extend_from_slice(pieces.piece())?;
    }
    *room = Some(pieces.into_room());
    Ok(())
}
