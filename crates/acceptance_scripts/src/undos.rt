// Edits that are taken back: what the commands of a script write then, and what they leave.
use crate::replays::{ACCEPTED, Case, SUM, SUM_TEXT, expect_frames, full_script, replay};
use modeller_cmd::Status;
use std::alloc::{AllocError, Global};
use std::test::Fail;
use trial_runs::Ending;

// The texts and the refused lines were worked out by a program of its own, which keeps each model that stood, and
// the pixels and the costs by hand.
const CASES: [Case; 14] = [
    // A clause that gets another form, and the very form that it has.
    (
        "a var-x\nb var-y\nc add a b\n%%\nset b neg a\ntext\nundo\ntext\nset c add a b\n\
        text\nundo\ntext\nundo\n",
        b"@ text 26\na var-x\nb neg a\nc add a b\n@ text 26\na var-x\nb var-y\nc add a b\n\
        @ text 26\na var-x\nb var-y\nc add a b\n@ text 26\na var-x\nb var-y\nc add a b\n\
        @ refused 13 NothingToUndo\n",
    ),
    // The arguments exchanged, and a number.
    (
        "a var-x\nb var-y\nc add a b\n%%\nset c sub b a\nundo\ntext\nset b const 0.5\n\
        set b const -3\nundo\ntext\nundo\ntext\n",
        b"@ text 26\na var-x\nb var-y\nc add a b\n@ text 39\na var-x\nb const 0.5000000000\n\
        c add a b\n@ text 26\na var-x\nb var-y\nc add a b\n",
    ),
    // A clause that is added, and its name again once that was taken back.
    (
        "a var-x\nb var-y\nc add a b\n%%\nadd d neg c\ntext\nundo\ntext\ncut d\nadd d abs a\n\
        undo\nundo\ntext\n",
        b"@ text 34\na var-x\nb var-y\nc add a b\nd neg c\n@ text 26\na var-x\nb var-y\n\
        c add a b\n@ refused 9 UnknownName\n@ refused 12 NothingToUndo\n@ text 26\na var-x\n\
        b var-y\nc add a b\n",
    ),
    // A clause before the first one, before the last one, and between.
    (
        "a var-x\nb var-y\nc add a b\n%%\nput a d const 1\nput c e neg d\nput b f abs a\n\
        text\nundo\ntext\nundo\ntext\nundo\ntext\n",
        b"@ text 63\nd const 1.0000000000\na var-x\nf abs a\nb var-y\ne neg d\nc add a b\n\
        @ text 55\nd const 1.0000000000\na var-x\nb var-y\ne neg d\nc add a b\n@ text 47\n\
        d const 1.0000000000\na var-x\nb var-y\nc add a b\n@ text 26\na var-x\nb var-y\n\
        c add a b\n",
    ),
    // The output goes and comes back, and what is added between has its name.
    (
        "a var-x\nb var-y\nc add a b\n%%\ncut c\ntext\nundo\ntext\ncut c\nadd c neg a\nundo\n\
        undo\ntext\n",
        b"@ text 16\na var-x\nb var-y\n@ text 26\na var-x\nb var-y\nc add a b\n@ text 26\n\
        a var-x\nb var-y\nc add a b\n",
    ),
    // The clause before the output goes, and then the first one.
    (
        "a var-x\nb var-y\nc add a b\n%%\nset c neg a\ncut b\ntext\nundo\ntext\nundo\n\
        set c abs b\ncut a\ntext\nundo\ntext\nundo\ntext\n",
        b"@ text 16\na var-x\nc neg a\n@ text 24\na var-x\nb var-y\nc neg a\n@ text 16\n\
        b var-y\nc abs b\n@ text 24\na var-x\nb var-y\nc abs b\n@ text 26\na var-x\n\
        b var-y\nc add a b\n",
    ),
    // All but one go, from the last to the first and from the first to the last.
    (
        "a var-x\nb var-y\nc add a b\n%%\ncut c\ncut b\ntext\nundo\nundo\ntext\nset c var-z\n\
        cut a\ncut b\ntext\nundo\ntext\nundo\nundo\ntext\n",
        b"@ text 8\na var-x\n@ text 26\na var-x\nb var-y\nc add a b\n@ text 8\nc var-z\n\
        @ text 16\nb var-y\nc var-z\n@ text 26\na var-x\nb var-y\nc add a b\n",
    ),
    // Edits of each kind, one after the other, and all of them back.
    (
        "a var-x\nb var-y\nc add a b\n%%\nset b neg a\nput c d min b a\nset c max d b\n\
        add e neg c\ncut e\nput a f var-z\nset a abs f\nadd h div d c\ncut h\ncut c\ntext\n\
        undo\ntext\nundo\ntext\nundo\ntext\nundo\ntext\nundo\ntext\nundo\ntext\nundo\ntext\n\
        undo\ntext\nundo\ntext\nundo\ntext\nundo\n",
        b"@ text 34\nf var-z\na abs f\nb neg a\nd min b a\n@ text 44\nf var-z\na abs f\n\
        b neg a\nd min b a\nc max d b\n@ text 54\nf var-z\na abs f\nb neg a\nd min b a\n\
        c max d b\nh div d c\n@ text 44\nf var-z\na abs f\nb neg a\nd min b a\nc max d b\n\
        @ text 44\nf var-z\na var-x\nb neg a\nd min b a\nc max d b\n@ text 36\na var-x\n\
        b neg a\nd min b a\nc max d b\n@ text 44\na var-x\nb neg a\nd min b a\nc max d b\n\
        e neg c\n@ text 36\na var-x\nb neg a\nd min b a\nc max d b\n@ text 36\na var-x\n\
        b neg a\nd min b a\nc add a b\n@ text 26\na var-x\nb neg a\nc add a b\n@ text 26\n\
        a var-x\nb var-y\nc add a b\n@ refused 36 NothingToUndo\n",
    ),
    // Edits that are refused between, also for a token that begins with `#`, are not taken back.
    (
        "a var-x\nb var-y\nc add a b\n%%\nset b neg a\ncut a\nset b neg #a\nadd b var-x\n\
        put a d neg c\ncut #c\nset a neg a\nundo\ntext\nundo\n",
        b"@ refused 6 InUse\n@ refused 7 UnknownName\n@ refused 8 DoubleName\n\
        @ refused 9 NotEarlier\n@ refused 10 UnknownName\n@ refused 11 NotEarlier\n\
        @ text 26\na var-x\nb var-y\nc add a b\n@ refused 14 NothingToUndo\n",
    ),
    // An edit taken back, another one, and that taken back.
    (
        "a var-x\nb var-y\nc add a b\n%%\nset b neg a\nundo\nset b abs a\ntext\nundo\ntext\n\
        cut c\nundo\nadd d neg c\nundo\ntext\nundo\n",
        b"@ text 26\na var-x\nb abs a\nc add a b\n@ text 26\na var-x\nb var-y\nc add a b\n\
        @ text 26\na var-x\nb var-y\nc add a b\n@ refused 16 NothingToUndo\n",
    ),
    // More undos than edits, with their lines, and an edit behind them.
    (
        "a var-x\nb var-y\nc add a b\n%%\nundo\n\n# undo\nadd d neg c\nundo\n undo \t\nundo\n\
        add d neg c\ntext\nundo\ntext\n",
        b"@ refused 5 NothingToUndo\n@ refused 10 NothingToUndo\n@ refused 11 NothingToUndo\n\
        @ text 34\na var-x\nb var-y\nc add a b\nd neg c\n@ text 26\na var-x\nb var-y\n\
        c add a b\n",
    ),
    // What is in use after an edit was taken back, and what is not.
    (
        "a var-x\nb var-y\nc add a b\n%%\nadd d neg b\nset c neg a\nundo\ncut b\nundo\n\
        cut b\nset c neg a\ncut b\nundo\ncut a\ntext\n",
        b"@ refused 8 InUse\n@ refused 10 InUse\n@ refused 14 InUse\n@ text 24\na var-x\n\
        b var-y\nc neg a\n",
    ),
    // A model of one clause.
    (
        "x var-x\n%%\ncut x\nundo\nset x var-y\ncut x\nundo\ntext\nundo\n",
        b"@ refused 3 LastClause\n@ refused 4 NothingToUndo\n@ refused 6 LastClause\n\
        @ text 8\nx var-x\n@ refused 9 NothingToUndo\n",
    ),
    // Frames between. An image takes what changed since the last one, and after an edit that was taken
    // back at once nothing; the cost is that of the last image.
    (
        "x var-x\np const -0.5\nq const 0.5\na sub x p\nb abs a\nc sub x q\nd abs c\n\
        e min b d\nr const 0.25\nf sub e r\n%%\nrender w=32 h=1\ncost\nset q const 0.625\n\
        render w=32 h=1\ncost\nundo\ncost\nrender w=32 h=1\ncost\ncut f\n\
        height w=1 h=1 d=3\nundo\nrender w=32 h=1\ncost\n",
        b"@ render 44\nP5\n32 1\n255\n\
        \x00\x00\x00\x00\xff\xff\xff\xff\xff\xff\xff\xff\x00\x00\x00\x00\
        \x00\x00\x00\x00\xff\xff\xff\xff\xff\xff\xff\xff\x00\x00\x00\x00@ cost 7\n192 54\n\
        @ render 44\nP5\n32 1\n255\n\
        \x00\x00\x00\x00\xff\xff\xff\xff\xff\xff\xff\xff\x00\x00\x00\x00\
        \x00\x00\x00\x00\x00\x00\xff\xff\xff\xff\xff\xff\xff\xff\x00\x00@ cost 7\n128 50\n\
        @ cost 7\n128 50\n@ render 44\nP5\n32 1\n255\n\
        \x00\x00\x00\x00\xff\xff\xff\xff\xff\xff\xff\xff\x00\x00\x00\x00\
        \x00\x00\x00\x00\xff\xff\xff\xff\xff\xff\xff\xff\x00\x00\x00\x00@ cost 6\n96 42\n\
        @ height 10\nP5\n1 1\n3\n\x00@ render 44\nP5\n32 1\n255\n\
        \x00\x00\x00\x00\xff\xff\xff\xff\xff\xff\xff\xff\x00\x00\x00\x00\
        \x00\x00\x00\x00\xff\xff\xff\xff\xff\xff\xff\xff\x00\x00\x00\x00@ cost 4\n0 0\n",
    ),
];

#[test]
fn undos_take_back_the_last_edit(rt: HostRuntime) -> Result<(), Fail> {
    expect_frames(&rt, rt.alloc(), &CASES)?;
    Ok(())
}

// All edits, and as many undos and one more, with the text after each.
fn undoing_script(alloc: Global, edits: &[(&str, &str)]) -> Result<String, AllocError> {
    let mut script = String::from_str(alloc, SUM)?;
    script.push_str("%%\n")?;
    for (edit, _) in edits {
        writeln!(script, "{edit}")?;
    }
    for _ in edits {
        script.push_str("undo\ntext\n")?;
    }
    script.push_str("undo\n")?;
    Ok(script)
}

// The texts before the last edit, before the one before it, and so on up to the first.
fn texts_back(alloc: Global, edits: &[(&str, &str)]) -> Result<String, AllocError> {
    let mut written = String::new(alloc);
    for undone in 1..edits.len() {
        let (_, text) = edits[edits.len() - 1 - undone];
        written.push_str(text)?;
    }
    written.push_str(SUM_TEXT)?;
    written.push_str("@ refused 89 NothingToUndo\n")?;
    Ok(written)
}

#[test]
fn edits_are_taken_back_one_after_the_other(rt: HostRuntime) -> Result<(), Fail> {
    let script = undoing_script(rt.alloc(), &ACCEPTED)?;
    let written = texts_back(rt.alloc(), &ACCEPTED)?;
    let ending = replay(rt.alloc(), &script, written.as_bytes())?;
    assert_eq!(rt; ending, Ending::wanted(Status::Done));
    Ok(())
}

// Commands over a full model, and what they write.
const FULL: &str = "%%\nundo\nadd a var-y\nundo\ncut 0\nundo\nadd a var-y\ncut 65534\nundo\n\
    put 1 a var-y\ncut 0\nadd a const 0\nput 1 b var-y\nundo\nundo\ncut a\n\
    put 1 0 var-x\nundo\nrender w=1 h=1\n";

const FULL_WRITTEN: &[u8] = b"@ refused 65537 NothingToUndo\n@ refused 65538 Full\n\
    @ refused 65539 NothingToUndo\n@ refused 65542 Full\n@ refused 65545 Full\n\
    @ refused 65548 Full\n@ refused 65551 UnknownName\n@ refused 65552 DoubleName\n\
    @ refused 65553 NothingToUndo\n@ render 12\nP5\n1 1\n255\n\xff";

#[test]
fn a_full_model_gets_its_clauses_back(rt: HostRuntime) -> Result<(), Fail> {
    let script = full_script(rt.alloc(), FULL)?;
    let ending = replay(rt.alloc(), &script, FULL_WRITTEN)?;
    assert_eq!(rt; ending, Ending::wanted(Status::Done));
    Ok(())
}
