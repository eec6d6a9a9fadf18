// Loops along successors.
ghost use Rattle.std.specs.Prelude.{◌≡◌, ◌+◌, ◌<◌, ◌≤◌, ◌^◌, ◌++◌, All, IfOk, OnOk, length};
ghost use Rattle.std.specs.List.{concat};
ghost use Rattle.plane_loops.specs.Contours.{ends_from};
ghost use Rattle.plane_loops.specs.Following.{loops_by, mark_all, rest_from, unmarked, walk};

use std::alloc::{AllocError, Global};

// The loops that follow the successors of vertices, one after the other, and where each of them ends.
// AllocError: there is no memory for them.
pub(crate) fn follow(alloc: Global, next: &[u32]) -> Result<(Vec<u32>, Vec<u32>), AllocError>
    requires few { length next.now < 2 ^ 32 }
    requires within { All (λ v. v < length next.now) next.now }
    ensures order { IfOk result (λ found. found.0.items ≡ concat (loops_by next.now)) }
    ensures ends { IfOk result (λ found. found.1.items ≡ ends_from 0 (loops_by next.now)) }
{
    let mut marks = vec![in alloc; false; next.len()]?;
    let mut order = Vec::with_capacity(alloc, next.len())?;
    let mut ends = Vec::new(alloc);
    push_loops(next, &mut marks, &mut order, &mut ends)?;
    Ok((order, ends))
}

// Appends the loops through the vertices that are not marked, and where each of them ends. AllocError:
// there is no memory for them.
fn push_loops(
    next: &[u32],
    marks: &mut [bool],
    order: &mut Vec<u32>,
    ends: &mut Vec<u32>,
) -> Result<(), AllocError>
    requires few { length next.now < 2 ^ 32 }
    requires within { All (λ v. v < length next.now) next.now }
    requires marks { length marks.old ≡ length next.now }
    requires count { length order.old.items + unmarked marks.old ≡ length next.now }
    ensures order { OnOk result
        (order.new.items ≡ order.old.items ++ concat (rest_from next.now marks.old 0)) }
    ensures ends { OnOk result (ends.new.items
        ≡ ends.old.items ++ ends_from (length order.old.items) (rest_from next.now marks.old 0)) }
{
    for start in 0..next.len() {
        push_from(next, start, marks, order, ends)?;
    }
    Ok(())
}

// Appends the loop that starts at a vertex, and where it ends, unless the vertex is marked. AllocError:
// there is no memory for them.
fn push_from(
    next: &[u32],
    start: usize,
    marks: &mut [bool],
    order: &mut Vec<u32>,
    ends: &mut Vec<u32>,
) -> Result<(), AllocError>
    requires few { length next.now < 2 ^ 32 }
    requires within { All (λ v. v < length next.now) next.now }
    requires marks { length marks.old ≡ length next.now }
    requires start { start < length next.now }
    requires count { length order.old.items + unmarked marks.old ≡ length next.now }
    ensures order { OnOk result (order.new.items ++ concat (rest_from next.now marks.new (start + 1))
        ≡ order.old.items ++ concat (rest_from next.now marks.old start)) }
    ensures ends { OnOk result (ends.new.items
        ++ ends_from (length order.new.items) (rest_from next.now marks.new (start + 1))
        ≡ ends.old.items ++ ends_from (length order.old.items) (rest_from next.now marks.old start)) }
    ensures count { OnOk result (length order.new.items + unmarked marks.new ≡ length next.now) }
{
    if marks[start] {
        return Ok(());
    }
    push_loop(next, start, marks, order)?;
    ends.push(order.len() as u32)?;
    Ok(())
}

// Marks the vertices from one on, each the successor of the one before, up to the first that is
// marked, and appends them. AllocError: there is no memory for them.
fn push_loop(
    next: &[u32],
    start: usize,
    marks: &mut [bool],
    order: &mut Vec<u32>,
) -> Result<(), AllocError>
    requires few { length next.now < 2 ^ 32 }
    requires within { All (λ v. v < length next.now) next.now }
    requires marks { length marks.old ≡ length next.now }
    requires start { start < length next.now }
    ensures order { OnOk result
        (order.new.items ≡ order.old.items ++ walk (unmarked marks.old) next.now marks.old start) }
    ensures marks { OnOk result
        (marks.new ≡ mark_all marks.old (walk (unmarked marks.old) next.now marks.old start)) }
    ensures count { OnOk result (length order.new.items + unmarked marks.new
        ≡ length order.old.items + unmarked marks.old) }
{
    let mut at = start;
    while !marks[at] {
        marks[at] = true;
        order.push(at as u32)?;
        at = next[at] as usize;
    }
    Ok(())
}
