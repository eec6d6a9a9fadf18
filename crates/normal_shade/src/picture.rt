// The picture of a height map that is shaded.
ghost use Rattle.std.specs.Prelude.{◌≡◌, IfOk, OnOk};
ghost use Rattle.view_places.specs.Window.{FitsHeight};
ghost use Rattle.box_chains.specs.Tallied.{CountsAtMost, CountsExactly};
ghost use Rattle.height_map.specs.Tops.{tops_of};
ghost use Rattle.normal_shade.specs.Shades.{shade_points, shade_spans, shades_of};

use crate::scratch::Scratch;
use crate::shading::Shader;
use box_chains::Desk;
use box_descent::descend;
use fixed_ops::Tally;
use live_clauses::Tape;
use std::alloc::{AllocError, Global};
use view_places::{Lattice, View};

/// The light on what lies nearest in each column of samples, row by row from the top of the map on,
/// and each row from the left on: 0 where no sample of the column is inside, and otherwise the share of
/// the slope along z at the nearest one that is, from 1 to 255. The slopes are those of the whole list.
/// `tops` are the tops of the height map. Each step that is traced over a box is counted, at most four
/// corners with it, and exactly the evaluations of the dual numbers at the top samples, each by the list
/// that the last box on the way to it prunes. The traced steps are those of the boxes on these ways.
/// AllocError: there is no memory for the picture, and no more work was done than it takes.
pub fn shade(
    alloc: Global,
    tape: &Tape,
    view: &View,
    tops: &[u16],
    tally: &mut Tally,
) -> Result<Vec<u8>, AllocError>
    requires fits { FitsHeight view.now }
    requires tops { tops.now ≡ tops_of view.now tape.now }
    ensures pixels { IfOk result (λ pixels. pixels.items ≡ shades_of view.now tape.now) }
    ensures counted { OnOk result (CountsExactly (shade_points view.now tape.now)
        (shade_spans view.now tape.now) tally.old tally.new) }
    ensures at_most { CountsAtMost (shade_points view.now tape.now)
        (shade_spans view.now tape.now) tally.old tally.new }
{
    // A list can be evaluated.
    let _len = tape.len();
    let mut desk = Desk::new(alloc, view, Lattice::Height, tape)?;
    let root = desk.root();
    let mut shader = Shader {
        tops,
        pixels: vec![in alloc; 0u8; view.w as usize * view.h as usize]?,
        scratch: Scratch::new(alloc),
    };
    // The list that the desk was made with has the number 0.
    descend(&mut desk, 0, &[root], &mut shader, tally)?;
    Ok(shader.pixels)
}
