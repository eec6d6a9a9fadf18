// On which side the points of a plane grid lie, and the corners of its cells.
ghost use Rattle.std.specs.Prelude.{◌≡◌, ◌+◌, ◌*◌, ◌<◌, ◌≤◌, false, List, IfOk, OnOk, length};
ghost use Rattle.live_clauses.specs.declared.step.Step.{Step};
ghost use Rattle.view_places.specs.Window.{Window, IsWindow};
ghost use Rattle.contour_lines.specs.Signs.{AreRows, side_after as side_after_of, side_of, signs_by};
ghost use Rattle.contour_lines.specs.Tables.{known_of};
ghost use Rattle.contour_lines.specs.Trees.{IsTold};

use crate::known_values::KnownValues;
use fixed_ops::{Fx, is_inside};
use std::alloc::{AllocError, Global};

/// Whether each point of a plane grid is inside, row by row. A point that is not known lies on the side of
/// the one before it in its row: a cell of which some corner is not known has all corners on one side, and
/// no first point of a row is inside. AllocError: there is no memory for it.
pub fn sides_of(alloc: Global, values: &KnownValues) -> Result<Vec<bool>, AllocError>
    ensures { IfOk result (λ sides. (view : Window) (list : List Step) → IsWindow view
        → IsTold view list (known_of values.now) → AreRows (values.now.n.x + 1) (side_of view list) false
        (values.now.n.y + 1) 0 sides.items) }
{
    let mut sides = Vec::new(alloc);
    for y in 0..values.ny() + 1 {
        push_row(y, values, &mut sides)?;
    }
    Ok(sides)
}

// Adds the sides of the points of a row. AllocError: there is no memory for them.
fn push_row(y: u32, values: &KnownValues, sides: &mut Vec<bool>) -> Result<(), AllocError>
    requires { y ≤ values.now.n.y }
    ensures { OnOk result ((view : Window) (list : List Step) → IsWindow view
        → IsTold view list (known_of values.now)
        → AreRows (values.now.n.x + 1) (side_of view list) false y 0 sides.old.items
        → AreRows (values.now.n.x + 1) (side_of view list) false (y + 1) 0 sides.new.items) }
{
    let mut side = false;
    for x in 0..values.nx() + 1 {
        side = side_after(values.get(x, y), side);
        sides.push(side)?;
    }
    Ok(())
}

// The side of a point, by its value where that is known, and else by the side of the point before it.
#[inline]
fn side_after(known: Option<Fx>, before: bool) -> bool
    ensures { result ≡ side_after_of known before }
{
    match known {
        Some(value) => is_inside(value),
        None => before,
    }
}

/// The signs of each cell of a plane grid, row by row, by the sides of the points. AllocError: there is no
/// memory for them.
pub fn signs_of(alloc: Global, nx: u32, ny: u32, sides: &[bool]) -> Result<Vec<u8>, AllocError>
    requires wide { nx ≤ 512 }
    requires high { ny ≤ 512 }
    requires sides { length sides.now ≡ (ny + 1) * (nx + 1) }
    ensures { IfOk result (λ signs. AreRows nx (signs_by nx sides.now) 0 ny 0 signs.items) }
{
    let mut signs = Vec::new(alloc);
    for y in 0..ny {
        push_signs(y, nx, ny, sides, &mut signs)?;
    }
    Ok(signs)
}

// Adds the signs of the cells of a row. AllocError: there is no memory for them.
fn push_signs(
    y: u32,
    nx: u32,
    ny: u32,
    sides: &[bool],
    signs: &mut Vec<u8>,
) -> Result<(), AllocError>
    requires wide { nx ≤ 512 }
    requires high { ny ≤ 512 }
    requires y { y < ny }
    requires sides { length sides.now ≡ (ny + 1) * (nx + 1) }
    requires before { AreRows nx (signs_by nx sides.now) 0 y 0 signs.old.items }
    ensures { OnOk result (AreRows nx (signs_by nx sides.now) 0 (y + 1) 0 signs.new.items) }
{
    let row = nx as usize + 1;
    for x in 0..nx {
        let low = y as usize * row + x as usize;
        let high = low + row;
        let below = u8::from(sides[low]) + 2 * u8::from(sides[low + 1]);
        let above = u8::from(sides[high]) + 2 * u8::from(sides[high + 1]);
        signs.push(below + 4 * above)?;
    }
    Ok(())
}
