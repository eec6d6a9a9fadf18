// How much room the text of a mesh takes.
ghost use Rattle.std.specs.Prelude.{◌+◌, ◌*◌, ◌≤◌, ◌<◌, ◌^◌};
ghost use Rattle.fixed_ops.specs.Raw.{IsRaw};

use crate::header::HEADER;
use arrayvec::ArrayVec;
use fixed_ops::write_raw;
use itoa::Buffer;
use view_places::View;

/// A bound on the bytes of the text of a mesh over a view, near to them: no number is longer than
/// the longer end of its axis, and none of a vertex longer than the count of vertices.
pub fn room_for(vertices: usize, faces: usize, view: &View) -> usize
    requires vertices { vertices < 2 ^ 31 }
    requires faces { faces < 2 ^ 31 }
    ensures { result ≤ HEADER + 69 * vertices + 65 * faces }
{
    let numbers = longer(view.x0, view.x1) + longer(view.y0, view.y1) + longer(view.z0, view.z1);
    HEADER + vertices * (numbers + 3) + faces * (3 * count_len(vertices) + 5)
}

// The length of the longer text of two raw numbers.
fn longer(a: i64, b: i64) -> usize
    requires first { IsRaw a }
    requires second { IsRaw b }
    ensures { result ≤ 22 }
{
    number_len(a).max(number_len(b))
}

// The length of the text of a raw number.
fn number_len(v: i64) -> usize
    requires { IsRaw v }
    ensures { result ≤ 22 }
{
    let mut text = ArrayVec::new();
    write_raw(v, &mut text);
    text.len()
}

// How many digits a count has.
fn count_len(count: usize) -> usize
    ensures { result ≤ 20 }
{
    let mut buffer = Buffer::new();
    buffer.format(count).len()
}
