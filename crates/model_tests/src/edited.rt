// Models whose edits are taken back.
use crate::changes::{Change, edit_of};
use crate::starts::{DISC, read};
use crate::walks::has_operands;
use solid_model::EditedModel;
use std::alloc::Global;
use std::process::Abort;
use std::test::Fail;

// What is done to a model whose edits are kept.
#[derive(Clone, Copy)]
enum Step<'a> {
    // An edit leaves operands at these places.
    Edit(Change<'a>, &'a [u8]),
    // An edit is refused.
    Refused(Change<'a>),
    // Undoing the last edit leaves operands at these places.
    Undo(&'a [u8]),
    // There is nothing to undo, and the operands stay at these places.
    NoUndo(&'a [u8]),
}

fn expect_all(
    rt: &impl Abort,
    alloc: Global,
    model: &mut EditedModel,
    steps: &[Step<'_>],
) -> Result<(), Fail> {
    for (at, step) in steps.iter().enumerate() {
        assert!(rt; holds(alloc, model, step)?, "at {at}");
    }
    Ok(())
}

fn holds(alloc: Global, model: &mut EditedModel, step: &Step<'_>) -> Result<bool, Fail> {
    match step {
        Step::Edit(change, digits) => {
            let accepted = accepts(alloc, model, *change)?;
            Ok(accepted && has_operands(model.model(), digits))
        }
        Step::Refused(change) => Ok(!accepts(alloc, model, *change)?),
        Step::Undo(digits) => Ok(model.undo()? && has_operands(model.model(), digits)),
        Step::NoUndo(digits) => Ok(!model.undo()? && has_operands(model.model(), digits)),
    }
}

fn accepts(alloc: Global, model: &mut EditedModel, change: Change<'_>) -> Result<bool, Fail> {
    let edit = edit_of(alloc, change)?;
    Ok(model.edit(&edit).is_ok())
}

const IN_TURN: &[Step<'static>] = &[
    Step::Edit(Change::Put(b"c", b"g", b"min a b"), b"0000010011340056"),
    Step::Refused(Change::Cut(b"a")),
    Step::Edit(Change::Set(b"f", b"sub r e"), b"0000010011340065"),
    Step::Refused(Change::Cut(b"a")),
    Step::Edit(Change::Add(b"h", b"mul f f"), b"000001001134006577"),
    Step::Refused(Change::Cut(b"a")),
    Step::Edit(Change::Cut(b"h"), b"0000010011340065"),
    Step::Refused(Change::Cut(b"a")),
    Step::Edit(Change::Cut(b"g"), b"00000011230054"),
    Step::Refused(Change::Cut(b"a")),
    Step::Edit(Change::Cut(b"f"), b"000000112300"),
    Step::Refused(Change::Cut(b"a")),
    Step::Undo(b"00000011230054"),
    Step::Undo(b"0000010011340065"),
    Step::Undo(b"000001001134006577"),
    Step::Undo(b"0000010011340065"),
    Step::Undo(b"0000010011340056"),
    Step::Undo(b"00000011230045"),
    Step::NoUndo(b"00000011230045"),
];

#[test]
fn edits_are_taken_back_in_turn(rt: HostRuntime) -> Result<(), Fail> {
    let mut model = EditedModel::start(rt.alloc(), read(rt.alloc(), DISC)?);
    expect_all(&rt, rt.alloc(), &mut model, IN_TURN)
}
