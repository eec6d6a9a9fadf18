// How images go out: some rows at a time, from one buffer.
ghost use Rattle.std.specs.Prelude.{◌≡◌, ◌+◌, ◌-◌, ◌*◌, ◌<◌, ◌≤◌, ◌++◌, length, take, OnErr, OnOk};
ghost use Rattle.model_frames.specs.Images.{drawn_text};
ghost use Rattle.modeller_io.specs.Count.{RoseBy, Stands};
ghost use Rattle.modeller_io.specs.Held.{Gains, GainsProperPrefix};
ghost use Rattle.quad_descent.specs.Rows.{IsOver, rows_at};
ghost use Rattle.modeller_cmd.specs.Bands.{HasRoom, most_rows as rows_at_once};
ghost use Rattle.modeller_cmd.specs.Execution.{Sent};
ghost use Rattle.modeller_cmd.specs.declared.line.TheConstants.{LINE_LIMIT};

use crate::line::LINE_LIMIT;
use crate::stop::Stop;
use arrayvec::ArrayVec;
use modeller_io::{Failed, Sink, write_all};
use quad_descent::RowSource;
use raster_pgm::pgm_head;
use std::alloc::{AllocError, Global};
use view_places::View;

/// The most rows of an image that are written at once. So few fit the cache of a processor, and a leaf,
/// which has at most eight, lies in at most two such pieces.
pub const BAND_ROWS: u32 = 16;

/// The most bytes of rows that are written at once: as many as sixteen rows of the widest image have.
pub const BAND_BYTES: u32 = 65_536;

/// The most bytes that stand before the first rows: a line, and the header.
pub const FRONT: usize = LINE_LIMIT + 24;

/// Writes an image over a view. All memory is taken before the first byte is written.
pub fn send_image<K: Sink, R: RowSource>(
    alloc: Global,
    image: &R,
    view: &View,
    out: &mut K,
) -> Result<(), Stop>
    requires { IsOver (R.image image.now) view.now }
    ensures { Sent K.held K.faults out.old out.new (drawn_text (R.image image.now)) result }
{
    let mut buffer = Vec::new(alloc);
    make_room(view, &mut buffer)?;
    Ok(write_image(out, image, view, b"", &mut buffer)?)
}

/// Makes a buffer long enough to write an image over a view from. AllocError: there is no memory for
/// it.
pub fn make_room(view: &View, buffer: &mut Vec<u8>) -> Result<(), AllocError>
    ensures { OnOk result (HasRoom view.now buffer.new.items) }
{
    let wanted = FRONT + most_rows(view) as usize * view.w as usize;
    if buffer.len() < wanted {
        buffer.resize(wanted, 0)?;
    }
    Ok(())
}

/// Writes a line, and an image over a view after it: the line, the header and the first rows in one
/// piece, and then the rows below, some at a time. After `Failed` a proper prefix of all this was
/// taken.
pub fn write_image<K: Sink, R: RowSource>(
    out: &mut K,
    image: &R,
    view: &View,
    line: &[u8],
    buffer: &mut [u8],
) -> Result<(), Failed>
    requires over { IsOver (R.image image.now) view.now }
    requires short { length line.now ≤ LINE_LIMIT }
    requires room { HasRoom view.now buffer.old }
    ensures ok { OnOk result
        (Gains K.held out.old out.new (line.now ++ drawn_text (R.image image.now))) }
    ensures err { OnErr result
        (GainsProperPrefix K.held out.old out.new (line.now ++ drawn_text (R.image image.now))) }
    ensures no_fault { OnOk result (Stands K.faults out.old out.new) }
    ensures cause { OnErr result (RoseBy K.faults out.old out.new 1) }
{
    let mut head = ArrayVec::new();
    pgm_head(view.w, view.h, 255, &mut head);
    let start = put_text(line, 0, buffer);
    let start = put_text(head.as_slice(), start, buffer);
    let rows = band_rows(view, 0);
    write_band(out, image, view, 0, rows, start, buffer)?;
    write_bands(out, image, view, rows, buffer)
}

// Writes the rows of an image from one on, some at a time.
fn write_bands<K: Sink, R: RowSource>(
    out: &mut K,
    image: &R,
    view: &View,
    first: u32,
    buffer: &mut [u8],
) -> Result<(), Failed>
    requires over { IsOver (R.image image.now) view.now }
    requires within { first ≤ view.now.h }
    requires room { rows_at_once view.now * view.now.w ≤ length buffer.old }
    ensures ok { OnOk result (Gains K.held out.old out.new
        (rows_at (R.image image.now) first ((view.now.h - first) * view.now.w))) }
    ensures err { OnErr result (GainsProperPrefix K.held out.old out.new
        (rows_at (R.image image.now) first ((view.now.h - first) * view.now.w))) }
    ensures no_fault { OnOk result (Stands K.faults out.old out.new) }
    ensures cause { OnErr result (RoseBy K.faults out.old out.new 1) }
{
    let mut row = first;
    while row < view.h {
        let rows = band_rows(view, row);
        write_band(out, image, view, row, rows, 0, buffer)?;
        row += rows;
    }
    Ok(())
}

// Writes what stands in a buffer before a place, and so many rows of an image from one on behind it.
fn write_band<K: Sink, R: RowSource>(
    out: &mut K,
    image: &R,
    view: &View,
    row: u32,
    rows: u32,
    start: usize,
    buffer: &mut [u8],
) -> Result<(), Failed>
    requires over { IsOver (R.image image.now) view.now }
    requires within { row + rows ≤ view.now.h }
    requires room { start + rows * view.now.w ≤ length buffer.old }
    ensures ok { OnOk result (Gains K.held out.old out.new
        (take start buffer.old ++ rows_at (R.image image.now) row (rows * view.now.w))) }
    ensures err { OnErr result (GainsProperPrefix K.held out.old out.new
        (take start buffer.old ++ rows_at (R.image image.now) row (rows * view.now.w))) }
    ensures no_fault { OnOk result (Stands K.faults out.old out.new) }
    ensures cause { OnErr result (RoseBy K.faults out.old out.new 1) }
    ensures same { length buffer.new ≡ length buffer.old }
{
    let end = put_rows(image, view, row, rows, start, buffer);
    write_all(out, &buffer[..end])
}

/// Paints so many rows of an image from one on behind what stands in a buffer, and says where they end.
pub fn put_rows<R: RowSource>(
    image: &R,
    view: &View,
    row: u32,
    rows: u32,
    start: usize,
    buffer: &mut [u8],
) -> usize
    requires over { IsOver (R.image image.now) view.now }
    requires within { row + rows ≤ view.now.h }
    requires room { start + rows * view.now.w ≤ length buffer.old }
    ensures end { result ≡ start + rows * view.now.w }
    ensures front { take result buffer.new
        ≡ take start buffer.old ++ rows_at (R.image image.now) row (rows * view.now.w) }
    ensures same { length buffer.new ≡ length buffer.old }
{
    let end = start + rows as usize * view.w as usize;
    image.paint(row, &mut buffer[start..end]);
    end
}

// Puts a text behind what stands in a buffer, and says where it ends.
fn put_text(text: &[u8], start: usize, buffer: &mut [u8]) -> usize
    requires room { start + length text.now ≤ length buffer.old }
    ensures end { result ≡ start + length text.now }
    ensures front { take result buffer.new ≡ take start buffer.old ++ text.now }
    ensures same { length buffer.new ≡ length buffer.old }
{
    let end = start + text.len();
    buffer[start..end].copy_from_slice(text);
    end
}

/// How many rows of an image are written at once from one on.
pub fn band_rows(view: &View, row: u32) -> u32
    requires { row < view.now.h }
    ensures some { 0 < result }
    ensures few { result ≤ rows_at_once view.now }
    ensures within { row + result ≤ view.now.h }
{
    most_rows(view).min(view.h - row)
}

// The most rows of an image that are written at once.
fn most_rows(view: &View) -> u32
    ensures { result ≡ rows_at_once view.now }
{
    BAND_ROWS.min(BAND_BYTES / view.w).min(view.h)
}
