// How bytes go out: as what is drawn has them.
ghost use Rattle.std.specs.Prelude.{◌+◌, ◌≤◌, ◌++◌, length, OnErr, OnOk};
ghost use Rattle.grid_text.specs.Texts.{text_of};
ghost use Rattle.model_frames.specs.Drawn.{drawn_bytes};
ghost use Rattle.modeller_io.specs.Count.{RoseBy, Stands};
ghost use Rattle.modeller_io.specs.Held.{Gains, GainsProperPrefix};
ghost use Rattle.raster_pgm.specs.Pgm.{pgm_of};
ghost use Rattle.modeller_cmd.specs.Execution.{Sent};
ghost use Rattle.modeller_cmd.specs.declared.send.TheConstants.{SHORT};

use crate::image::send_image;
use crate::stop::Stop;
use arrayvec::ArrayVec;
use grid_text::GridPieces;
use model_frames::Drawn;
use modeller_io::{Failed, Sink, write_all};
use oct_descent::CellGrid;
use raster_pgm::pgm_head;
use std::alloc::Global;
use view_places::View;

/// As many bytes of two texts, or fewer, go out at once: a call of a sink takes about a microsecond where it is a
/// file, and a copy of these a hundredth.
pub const SHORT: usize = 256;

/// Writes the bytes of what is drawn: the rows of an image from one buffer, the pixels of a picture behind
/// their header, the text of a mesh piece by piece, and bytes that are there as they are. All memory is
/// taken before the first byte is written.
pub fn send<K: Sink>(alloc: Global, drawn: &Drawn, out: &mut K) -> Result<(), Stop>
    ensures { Sent K.held K.faults out.old out.new (drawn_bytes drawn.now) result }
{
    match drawn {
        Drawn::Image(picture) => send_image(alloc, picture, picture.view(), out),
        Drawn::Pixels(view, pixels) => send_pixels(view, pixels, out),
        Drawn::Mesh(grid) => send_mesh(alloc, grid, out),
        Drawn::Bytes(bytes) => send_text(out, bytes),
    }
}

// Writes the header of an image over a view, and its pixels after it.
fn send_pixels<K: Sink>(view: &View, pixels: &[u8], out: &mut K) -> Result<(), Stop>
    ensures { Sent K.held K.faults out.old out.new (pgm_of view.now.w view.now.h pixels.now) result }
{
    let mut head = ArrayVec::new();
    pgm_head(view.w, view.h, 255, &mut head);
    Ok(write_texts(out, head.as_slice(), pixels)?)
}

// Writes the text of the mesh of a grid, piece by piece.
fn send_mesh<K: Sink>(alloc: Global, grid: &CellGrid, out: &mut K) -> Result<(), Stop>
    ensures { Sent K.held K.faults out.old out.new (text_of grid.now.view grid.now.list) result }
{
    let pieces = GridPieces::new(alloc, grid)?;
    Ok(write_pieces(out, pieces)?)
}

/// Writes a text.
pub fn send_text<K: Sink>(out: &mut K, text: &[u8]) -> Result<(), Stop>
    ensures { Sent K.held K.faults out.old out.new text.now result }
{
    Ok(write_all(out, text)?)
}

/// Writes pieces, one after the other. After `Failed` a proper prefix of all this was taken.
pub fn write_pieces<K: Sink>(out: &mut K, mut text: GridPieces<'_>) -> Result<(), Failed>
    ensures ok { OnOk result (Gains K.held out.old out.new (text.entry.piece ++ text.entry.rest)) }
    ensures err { OnErr result (GainsProperPrefix K.held out.old out.new
        (text.entry.piece ++ text.entry.rest)) }
    ensures no_fault { OnOk result (Stands K.faults out.old out.new) }
    ensures cause { OnErr result (RoseBy K.faults out.old out.new 1) }
{
    write_all(out, text.piece())?;
    while text.advance() {
        write_all(out, text.piece())?;
    }
    Ok(())
}

/// Writes a text, and another one after it. After `Failed` a proper prefix of the two was taken.
pub fn write_texts<K: Sink>(out: &mut K, first: &[u8], next: &[u8]) -> Result<(), Failed>
    ensures ok { OnOk result (Gains K.held out.old out.new (first.now ++ next.now)) }
    ensures err { OnErr result (GainsProperPrefix K.held out.old out.new (first.now ++ next.now)) }
    ensures no_fault { OnOk result (Stands K.faults out.old out.new) }
    ensures cause { OnErr result (RoseBy K.faults out.old out.new 1) }
{
    if first.len() <= SHORT && next.len() <= SHORT - first.len() {
        write_joined(out, first, next)
    } else {
        write_apart(out, first, next)
    }
}

// Writes two short texts at once, which a sink takes in one call if it can.
fn write_joined<K: Sink>(out: &mut K, first: &[u8], next: &[u8]) -> Result<(), Failed>
    requires { length first.now + length next.now ≤ SHORT }
    ensures ok { OnOk result (Gains K.held out.old out.new (first.now ++ next.now)) }
    ensures err { OnErr result (GainsProperPrefix K.held out.old out.new (first.now ++ next.now)) }
    ensures no_fault { OnOk result (Stands K.faults out.old out.new) }
    ensures cause { OnErr result (RoseBy K.faults out.old out.new 1) }
{
    let mut joined = ArrayVec::<u8, SHORT>::new();
    joined.try_extend_from_slice(first).unwrap();
    joined.try_extend_from_slice(next).unwrap();
    write_all(out, joined.as_slice())
}

// Writes two texts one after the other.
fn write_apart<K: Sink>(out: &mut K, first: &[u8], next: &[u8]) -> Result<(), Failed>
    ensures ok { OnOk result (Gains K.held out.old out.new (first.now ++ next.now)) }
    ensures err { OnErr result (GainsProperPrefix K.held out.old out.new (first.now ++ next.now)) }
    ensures no_fault { OnOk result (Stands K.faults out.old out.new) }
    ensures cause { OnErr result (RoseBy K.faults out.old out.new 1) }
{
    write_all(out, first)?;
    write_all(out, next)
}
