// Values that are taken over from another grid.
ghost use Rattle.std.specs.Prelude.{◌≡◌, ◌+◌, ◌*◌, ◌/◌, ◌<◌, ◌≤◌, Some, OnOk};
ghost use Rattle.kuhn_cells.specs.Sizes.{SameSize};
ghost use Rattle.kuhn_cells.specs.Triangles.{point};
ghost use Rattle.oct_descent.specs.Tables.{stand as stand_of};
ghost use Rattle.oct_descent.specs.Taking.{IsInLayer, IsInRow, TakesAll, TakesOver, TakesPart, TakesSome};

use crate::grid_values::GridValues;
use std::alloc::AllocError;
use view_places::IndexBox;

impl GridValues {
    /// Takes over what another grid of the same points knows of those that a box covers, rows of eight
    /// at a time: a point that is known here already stays as it is. AllocError: there is no memory for
    /// it, and some of that may be taken over.
    pub fn take_over(&mut self, other: &GridValues, b: IndexBox) -> Result<(), AllocError>
        requires n { SameSize other.now.n self.old.n }
        requires x { b.x1 ≤ self.old.n.x }
        requires y { b.y1 ≤ self.old.n.y }
        requires z { b.z1 ≤ self.old.n.z }
        ensures part { TakesPart b other.now self.old self.new }
        ensures all { OnOk result (TakesOver b other.now self.old self.new) }
    {
        self.holds();
        for z in b.z0..b.z1 + 1 {
            self.take_layer(other, b, z)?;
        }
        Ok(())
    }

    // Takes over what is known of those points of layer z that lie between the sides of a box.
    fn take_layer(&mut self, other: &GridValues, b: IndexBox, z: u32) -> Result<(), AllocError>
        requires n { SameSize other.now.n self.old.n }
        requires x { b.x1 ≤ self.old.n.x }
        requires y { b.y1 ≤ self.old.n.y }
        requires z { z ≤ self.old.n.z }
        ensures part { TakesSome (IsInLayer b z) other.now self.old self.new }
        ensures all { OnOk result (TakesAll (IsInLayer b z) other.now self.old self.new) }
    {
        self.holds();
        for y in b.y0..b.y1 + 1 {
            self.take_line(other, b, y, z)?;
        }
        Ok(())
    }

    // Takes over what is known of those points of row y of layer z that lie between its sides.
    fn take_line(
        &mut self,
        other: &GridValues,
        b: IndexBox,
        y: u32,
        z: u32,
    ) -> Result<(), AllocError>
        requires n { SameSize other.now.n self.old.n }
        requires x { b.x1 ≤ self.old.n.x }
        requires y { y ≤ self.old.n.y }
        requires z { z ≤ self.old.n.z }
        ensures part { TakesSome (IsInRow b.x0 (b.x1 + 1) y z) other.now self.old self.new }
        ensures all { OnOk result
            (TakesAll (IsInRow b.x0 (b.x1 + 1) y z) other.now self.old self.new) }
    {
        self.holds();
        for eighth in b.x0 / 8..b.x1 / 8 + 1 {
            let (first, end) = (b.x0.max(eighth * 8), (b.x1 + 1).min(eighth * 8 + 8));
            self.take_row(other, first, end, y, z)?;
        }
        Ok(())
    }

    // Takes over what is known of the points along x, from one on up to another, that one brick has.
    #[inline]
    fn take_row(
        &mut self,
        other: &GridValues,
        first: u32,
        end: u32,
        y: u32,
        z: u32,
    ) -> Result<(), AllocError>
        requires n { SameSize other.now.n self.old.n }
        requires brick { end ≤ first / 8 * 8 + 8 }
        requires x { end ≤ self.old.n.x + 1 }
        requires y { y ≤ self.old.n.y }
        requires z { z ≤ self.old.n.z }
        ensures part { TakesSome (IsInRow first end y z) other.now self.old self.new }
        ensures all { OnOk result (TakesAll (IsInRow first end y z) other.now self.old self.new) }
    {
        if end <= first {
            return Ok(());
        }
        let Some(from) = other.stand(first, y, z) else {
            return Ok(());
        };
        let to = self.make_room(first, y, z)?;
        self.take_places(other, first, end, y, z, from, to);
        Ok(())
    }

    // The same where the values of the first point stand there in both grids.
    #[inline]
    fn take_places(
        &mut self,
        other: &GridValues,
        first: u32,
        end: u32,
        y: u32,
        z: u32,
        from: usize,
        to: usize,
    )
        requires n { SameSize other.now.n self.old.n }
        requires some { first < end }
        requires brick { end ≤ first / 8 * 8 + 8 }
        requires x { end ≤ self.old.n.x + 1 }
        requires y { y ≤ self.old.n.y }
        requires z { z ≤ self.old.n.z }
        requires from { stand_of other.now (point first y z) ≡ Some from }
        requires to { stand_of self.old (point first y z) ≡ Some to }
        ensures { TakesAll (IsInRow first end y z) other.now self.old self.new }
    {
        self.holds();
        other.holds();
        for i in 0..(end - first) as usize {
            self.take_place(other, from + i, to + i);
        }
    }
}
