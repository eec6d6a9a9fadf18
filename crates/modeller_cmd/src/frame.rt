// The blocks that a script writes: frames, and the lines of what is refused.
ghost use Rattle.std.specs.Prelude.{◌≡◌, ◌≤◌, codes, length, OnErr, OnOk};
ghost use Rattle.model_frames.specs.Images.{drawn_text};
ghost use Rattle.modeller_io.specs.Count.{RoseBy, Stands};
ghost use Rattle.modeller_io.specs.Held.{Gains, GainsProperPrefix};
ghost use Rattle.quad_descent.specs.Rows.{IsOver};
ghost use Rattle.modeller_cmd.specs.Bands.{HasRoom};
ghost use Rattle.modeller_cmd.specs.CountTexts.{cost_text};
ghost use Rattle.modeller_cmd.specs.Frames.{frame_header, frame_of, refused_line};

use crate::image::write_image;
use crate::line::Line;
use crate::names::edit_fault_name;
use crate::send::write_texts;
use modeller_io::{Failed, Sink};
use quad_descent::RowSource;
use raster_pgm::raster_length;
use solid_model::EditFault;
use view_places::View;

/// Writes a frame: a line with the word for its kind and how many bytes it has, and then these
/// bytes. After `Failed` a proper prefix of all this was taken.
pub fn write_frame<K: Sink>(out: &mut K, name: &[u8], bytes: &[u8]) -> Result<(), Failed>
    requires { length name.now ≤ 6 }
    ensures ok { OnOk result (Gains K.held out.old out.new (frame_of name.now bytes.now)) }
    ensures err { OnErr result (GainsProperPrefix K.held out.old out.new (frame_of name.now bytes.now)) }
    ensures no_fault { OnOk result (Stands K.faults out.old out.new) }
    ensures cause { OnErr result (RoseBy K.faults out.old out.new 1) }
{
    let line = header(name, bytes.len() as u64);
    write_texts(out, line.bytes(), bytes)
}

/// Writes the frame of an image over a view, from a buffer. After `Failed` a proper prefix of it was
/// taken.
pub fn write_image_frame<K: Sink, R: RowSource>(
    out: &mut K,
    image: &R,
    view: &View,
    buffer: &mut [u8],
) -> Result<(), Failed>
    requires over { IsOver (R.image image.now) view.now }
    requires room { HasRoom view.now buffer.old }
    ensures ok { OnOk result (Gains K.held out.old out.new
        (frame_of (codes "render") (drawn_text (R.image image.now)))) }
    ensures err { OnErr result (GainsProperPrefix K.held out.old out.new
        (frame_of (codes "render") (drawn_text (R.image image.now)))) }
    ensures no_fault { OnOk result (Stands K.faults out.old out.new) }
    ensures cause { OnErr result (RoseBy K.faults out.old out.new 1) }
{
    let line = header(b"render", raster_length(view.w, view.h));
    write_image(out, image, view, line.bytes(), buffer)
}

/// The line that tells what an image took: its evaluations, and its traced steps.
pub fn cost_line(points: u64, spans: u64) -> Line
    ensures { result ≡ cost_text (record { points = points; spans = spans }) }
{
    let mut line = Line::new();
    line.push_number(points);
    line.push(b" ");
    line.push_number(spans);
    line.push(b"\n");
    line
}

/// The line before the bytes of a frame: the word for its kind, and how many bytes they are.
pub fn header(name: &[u8], count: u64) -> Line
    requires { length name.now ≤ 6 }
    ensures { result ≡ frame_header name.now count }
{
    let mut line = Line::new();
    line.push(b"@ ");
    line.push(name);
    line.push(b" ");
    line.push_number(count);
    line.push(b"\n");
    line
}

/// The line of an edit or an undo that is refused: the number of its line in the script, and why.
pub fn refused_line(number: u32, fault: EditFault) -> Line
    ensures { result ≡ refused_line number fault }
{
    let mut line = Line::new();
    line.push(b"@ refused ");
    line.push_number(u64::from(number));
    line.push(b" ");
    line.push(edit_fault_name(fault));
    line.push(b"\n");
    line
}
