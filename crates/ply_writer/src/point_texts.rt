// The texts of the places of a grid's points, each made once.
ghost use Rattle.std.specs.Prelude.{◌≡◌, ◌+◌, ◌≤◌, ◌++◌, IfOk, drop, length};
ghost use Rattle.fixed_ops.specs.NumberTexts.{number_text};
ghost use Rattle.fixed_ops.specs.Raw.{IsRaw};
ghost use Rattle.ply_writer.specs.PointTexts.{ArePointTexts, AreTextsAlong, IsTextOf};

use fixed_ops::{LONGEST_NUMBER, number_before};
use std::alloc::{AllocError, Global};
use view_places::{Axis, Lattice, View, samples_along};

// The text of a number, at the end of some bytes.
#[derive(Clone, Copy, Debug)]
pub(crate) struct PointText {
    pub(crate) start: u8,
    pub(crate) bytes: [u8; LONGEST_NUMBER],
}

impl PointText {
    // The text of a raw number.
    fn new(raw: i64) -> PointText
        requires { IsRaw raw }
        ensures { IsTextOf (number_text raw) result }
    {
        let mut bytes = [0; LONGEST_NUMBER];
        let start = number_before(raw, &mut bytes, LONGEST_NUMBER);
        PointText {
            start: start as u8,
            bytes,
        }
    }

    // Writes the text before `end`, and returns where it starts. What stands in front of it is
    // written over too.
    #[inline(always)]
    pub(crate) fn text_before(&self, line: &mut [u8], end: usize) -> usize
        requires start { self.now.start ≤ LONGEST_NUMBER }
        requires room { LONGEST_NUMBER ≤ end }
        requires within { end ≤ length line.old }
        ensures few { end ≤ result + LONGEST_NUMBER }
        ensures before { result ≤ end }
        ensures written { drop result line.new
            ≡ drop self.now.start self.now.bytes ++ drop end line.old }
    {
        let from = end - LONGEST_NUMBER;
        line[from..end].copy_from_slice(&self.bytes);
        from + usize::from(self.start)
    }
}

// The texts of the places of the points of a view's grid along each axis.
#[derive(Debug, Drop)]
pub(crate) struct PointTexts {
    pub(crate) x: Vec<PointText>,
    pub(crate) y: Vec<PointText>,
    pub(crate) z: Vec<PointText>,
}

impl PointTexts {
    // AllocError: there is no memory for them.
    pub(crate) fn new(alloc: Global, view: &View) -> Result<PointTexts, AllocError>
        ensures { IfOk result (ArePointTexts view.now) }
    {
        Ok(PointTexts {
            x: texts_along(alloc, view, Axis::X)?,
            y: texts_along(alloc, view, Axis::Y)?,
            z: texts_along(alloc, view, Axis::Z)?,
        })
    }
}

// The texts of the places of the points along an axis. AllocError: there is no memory for them.
fn texts_along(alloc: Global, view: &View, axis: Axis) -> Result<Vec<PointText>, AllocError>
    ensures { IfOk result (λ texts. AreTextsAlong view.now axis texts.items) }
{
    let samples = samples_along(view, Lattice::Grid, axis);
    let mut texts = Vec::with_capacity(alloc, samples.steps as usize + 1)?;
    for i in 0..samples.steps + 1 {
        texts.push(PointText::new(samples.place(i)))?;
    }
    Ok(texts)
}
