// Scripts that are replayed: what their commands write, and what they leave.
use modeller_cmd::Status;
use std::alloc::{AllocError, Global};
use std::process::Abort;
use std::test::Fail;
use trial_runs::{Ending, Trial};

/// An input, and what it writes.
pub type Case = (&'static str, &'static [u8]);

// The pixels, the tops, the lengths and the costs were worked out by hand.
const CASES: [Case; 14] = [
    // Edits that are refused, each for another reason, and the same picture before and after.
    (
        "x var-x\nc const 0.5\nf sub x c\n%%\nrender w=3 h=1\ncut c\nadd x var-y\nset c sub x f\n\
        render w=3 h=1\n",
        b"@ render 14\nP5\n3 1\n255\n\xff\xff\x00@ refused 6 InUse\n@ refused 7 DoubleName\n\
        @ refused 8 NotEarlier\n@ render 14\nP5\n3 1\n255\n\xff\xff\x00",
    ),
    // A clause before another, the output cut twice, and the last clause.
    (
        "x var-x\n%%\nput x c const 0.5\nadd f sub x c\ntext\ncut f\ncut x\ncut c\n",
        b"@ text 39\nc const 0.5000000000\nx var-x\nf sub x c\n@ refused 8 LastClause\n",
    ),
    // Floors, and a name that is the word of an operation.
    (
        "x var-x\n%%\nadd f floor x\nput f floor floor x\nset f floor floor\ntext\n",
        b"@ text 36\nx var-x\nfloor floor x\nf floor floor\n",
    ),
    // Two bars, of which the right one is moved over the left one: all boxes have another list.
    (
        "x var-x\np const -0.5\nq const 0.5\na sub x p\nb abs a\nc sub x q\nd abs c\ne min b d\n\
        r const 0.25\nf sub e r\n%%\nrender w=16 h=1\ncost\nset q const -0.75\n\
        render w=16 h=1\ncost",
        b"@ render 28\nP5\n16 1\n255\n\
        \x00\x00\xff\xff\xff\xff\x00\x00\x00\x00\xff\xff\xff\xff\x00\x00@ cost 6\n96 30\n\
        @ render 28\nP5\n16 1\n255\n\
        \x00\xff\xff\xff\xff\xff\x00\x00\x00\x00\x00\x00\x00\x00\x00\x00@ cost 6\n80 30\n",
    ),
    // The right bar is moved a little: the quarters about the left one have their lists still.
    (
        "x var-x\np const -0.5\nq const 0.5\na sub x p\nb abs a\nc sub x q\nd abs c\ne min b d\n\
        r const 0.25\nf sub e r\n%%\nrender w=32 h=1\ncost\nset q const 0.625\n\
        render w=32 h=1\ncost\n",
        b"@ render 44\nP5\n32 1\n255\n\
        \x00\x00\x00\x00\xff\xff\xff\xff\xff\xff\xff\xff\x00\x00\x00\x00\
        \x00\x00\x00\x00\xff\xff\xff\xff\xff\xff\xff\xff\x00\x00\x00\x00@ cost 7\n192 54\n\
        @ render 44\nP5\n32 1\n255\n\
        \x00\x00\x00\x00\xff\xff\xff\xff\xff\xff\xff\xff\x00\x00\x00\x00\
        \x00\x00\x00\x00\x00\x00\xff\xff\xff\xff\xff\xff\xff\xff\x00\x00@ cost 7\n128 50\n",
    ),
    // A clause that is not live is changed, which takes nothing.
    (
        "u const 5\nx var-x\n%%\nrender w=8 h=1\ncost\nset u const 7\nrender w=8 h=1\ncost\n",
        b"@ render 19\nP5\n8 1\n255\n\xff\xff\xff\xff\x00\x00\x00\x00@ cost 4\n8 1\n\
        @ render 19\nP5\n8 1\n255\n\xff\xff\xff\xff\x00\x00\x00\x00@ cost 4\n0 0\n",
    ),
    // Another view is drawn anew, and what is no image leaves the cost of the last one.
    (
        "x var-x\n%%\nrender w=8 h=1\nrender w=4 h=1\ntext\ncut y\ncost\nrender w=8 h=1\ncost\n",
        b"@ render 19\nP5\n8 1\n255\n\xff\xff\xff\xff\x00\x00\x00\x00\
        @ render 15\nP5\n4 1\n255\n\xff\xff\x00\x00@ text 8\nx var-x\n\
        @ refused 6 UnknownName\n@ cost 4\n4 1\n\
        @ render 19\nP5\n8 1\n255\n\xff\xff\xff\xff\x00\x00\x00\x00@ cost 4\n8 1\n",
    ),
    // No image yet.
    ("x var-x\n%%\ncost\n", b"@ cost 4\n0 0\n"),
    // Height maps of a slope, of all and of nothing.
    (
        "z var-z\n%%\nheight w=1 h=1 d=3\nheight w=1 h=1 d=300\nset z const -1\n\
        height w=1 h=1 d=3\nset z const 1\nheight w=1 h=1 d=3\n",
        b"@ height 10\nP5\n1 1\n3\n\x01@ height 13\nP5\n1 1\n300\n\x00\x96@ height 10\nP5\n1 1\n3\n\
        \x03@ height 10\nP5\n1 1\n3\n\x00",
    ),
    // A mesh of one cell, all of whose corners lie in the outermost layer.
    (
        "a const -1\n%%\nmesh n=1\n",
        b"@ mesh 157\nply\nformat ascii 1.0\nelement vertex 0\nproperty double x\n\
        property double y\nproperty double z\nelement face 0\n\
        property list uchar int vertex_indices\nend_header\n",
    ),
    // Each draw has its own settings.
    (
        "x var-x\n%%\nrender w=1 h=1 x0=1\nrender w=1 h=1\n",
        b"@ render 12\nP5\n1 1\n255\n\x00@ render 12\nP5\n1 1\n255\n\xff",
    ),
    // Blanks round the mark, blank lines and comments, and no line feed at the end.
    (
        "x var-x\r\n\t %% \r\n\r\n# text\r\n text\t\r\ntext",
        b"@ text 8\nx var-x\n@ text 8\nx var-x\n",
    ),
    // Nothing behind the mark, or nothing that says anything.
    ("x var-x\n%%", b""),
    ("x var-x\n%%\n # x\n\t", b""),
];

/// Replays a script, which should write this.
pub fn replay(alloc: Global, script: &str, written: &[u8]) -> Result<Ending, AllocError> {
    let ran = Trial::new(&["replay"], script.as_bytes()).run(alloc, written, b"")?;
    Ok(ran.ending)
}

/// Replays each input, which should write what its row says.
pub fn expect_frames(rt: &impl Abort, alloc: Global, rows: &[Case]) -> Result<(), AllocError> {
    for (input, written) in rows {
        let ending = replay(alloc, input, written)?;
        assert!(rt;
            ending == Ending::wanted(Status::Done),
            "{input:?}: {ending:?}"
        );
    }
    Ok(())
}

#[test]
fn commands_write_frames_of_the_model_then_standing(rt: HostRuntime) -> Result<(), Fail> {
    expect_frames(&rt, rt.alloc(), &CASES)?;
    Ok(())
}

/// The model that the edits below leave as it is.
pub const SUM: &str = "a var-x\nb var-y\nc add a b\n";

/// What `text` writes of it.
pub const SUM_TEXT: &str = "@ text 26\na var-x\nb var-y\nc add a b\n";

// Edits that are refused, in the lines 5, 7, 9 and so on, and why: the first reason that holds, also
// where others hold too.
const REFUSED: [(&str, &str); 20] = [
    // The clause is none, also where an argument stands too late; an argument is none.
    ("set d neg c", "@ refused 5 UnknownName\n"),
    ("set a add c d", "@ refused 7 UnknownName\n"),
    // An argument is the clause itself, or stands after it.
    ("set b neg b", "@ refused 9 NotEarlier\n"),
    ("set a add b c", "@ refused 11 NotEarlier\n"),
    // An argument is none, also where the name stands already.
    ("add c neg d", "@ refused 13 UnknownName\n"),
    ("add d neg d", "@ refused 15 UnknownName\n"),
    ("add c neg a", "@ refused 17 DoubleName\n"),
    // The other clause is none, or an argument, also where the name stands already.
    ("put d c neg c", "@ refused 19 UnknownName\n"),
    ("put b c neg d", "@ refused 21 UnknownName\n"),
    // The name stands already, also where an argument stands too late.
    ("put b c neg c", "@ refused 23 DoubleName\n"),
    ("put b d neg c", "@ refused 25 NotEarlier\n"),
    ("put b d neg b", "@ refused 27 NotEarlier\n"),
    ("cut d", "@ refused 29 UnknownName\n"),
    ("cut a", "@ refused 31 InUse\n"),
    ("cut b", "@ refused 33 InUse\n"),
    // A token that begins with `#` names no clause.
    ("set #a var-x", "@ refused 35 UnknownName\n"),
    ("set b neg #a", "@ refused 37 UnknownName\n"),
    ("put #b d var-x", "@ refused 39 UnknownName\n"),
    ("add c add #a b", "@ refused 41 UnknownName\n"),
    ("cut #c", "@ refused 43 UnknownName\n"),
];

// Edits of a model, the text of it asked for after each.
fn script_of(alloc: Global, model: &str, edits: &[(&str, &str)]) -> Result<String, AllocError> {
    let mut script = String::from_str(alloc, model)?;
    script.push_str("%%\n")?;
    for (edit, _) in edits {
        writeln!(script, "{edit}\ntext")?;
    }
    Ok(script)
}

// What is written of edits, and this behind each.
fn written_of(alloc: Global, edits: &[(&str, &str)], behind: &str) -> Result<String, AllocError> {
    let mut written = String::new(alloc);
    for (_, text) in edits {
        written.push_str(text)?;
        written.push_str(behind)?;
    }
    Ok(written)
}

// Replays edits of the sum and their texts, of which these are written.
fn replay_edits(alloc: Global, edits: &[(&str, &str)], behind: &str) -> Result<Ending, AllocError> {
    let script = script_of(alloc, SUM, edits)?;
    let written = written_of(alloc, edits, behind)?;
    replay(alloc, &script, written.as_bytes())
}

#[test]
fn an_edit_that_is_refused_changes_nothing(rt: HostRuntime) -> Result<(), Fail> {
    let ending = replay_edits(rt.alloc(), &REFUSED, SUM_TEXT)?;
    assert_eq!(rt; ending, Ending::wanted(Status::Done));
    Ok(())
}

/// Edits that are accepted, and the text after each: clauses that are put in and cut at the first
/// place, at the last and between, names that come again, and uses that fall to none and rise again.
/// The texts were worked out by a program of its own, which keeps a list of lines.
pub const ACCEPTED: [(&str, &str); 28] = [
    ("set b neg a", "@ text 26\na var-x\nb neg a\nc add a b\n"),
    (
        "put b d abs a",
        "@ text 34\na var-x\nd abs a\nb neg a\nc add a b\n",
    ),
    (
        "set c min d b",
        "@ text 34\na var-x\nd abs a\nb neg a\nc min d b\n",
    ),
    (
        "add e neg c",
        "@ text 42\na var-x\nd abs a\nb neg a\nc min d b\ne neg c\n",
    ),
    ("cut e", "@ text 34\na var-x\nd abs a\nb neg a\nc min d b\n"),
    ("cut c", "@ text 24\na var-x\nd abs a\nb neg a\n"),
    ("cut d", "@ text 16\na var-x\nb neg a\n"),
    (
        "put a f const 0.5",
        "@ text 37\nf const 0.5000000000\na var-x\nb neg a\n",
    ),
    (
        "put b g sub a f",
        "@ text 47\nf const 0.5000000000\na var-x\ng sub a f\nb neg a\n",
    ),
    (
        "add h max g b",
        "@ text 57\nf const 0.5000000000\na var-x\ng sub a f\nb neg a\nh max g b\n",
    ),
    (
        "put h g2 mul g g",
        "@ text 68\nf const 0.5000000000\na var-x\ng sub a f\nb neg a\ng2 mul g g\nh max g b\n",
    ),
    (
        "cut h",
        "@ text 58\nf const 0.5000000000\na var-x\ng sub a f\nb neg a\ng2 mul g g\n",
    ),
    (
        "add h min g2 f",
        "@ text 69\nf const 0.5000000000\na var-x\ng sub a f\nb neg a\ng2 mul g g\nh min g2 f\n",
    ),
    (
        "set g sub f a",
        "@ text 69\nf const 0.5000000000\na var-x\ng sub f a\nb neg a\ng2 mul g g\nh min g2 f\n",
    ),
    (
        "cut b",
        "@ text 61\nf const 0.5000000000\na var-x\ng sub f a\ng2 mul g g\nh min g2 f\n",
    ),
    (
        "add b neg h",
        "@ text 69\nf const 0.5000000000\na var-x\ng sub f a\ng2 mul g g\nh min g2 f\nb neg h\n",
    ),
    (
        "put f k var-z",
        "@ text 77\nk var-z\nf const 0.5000000000\na var-x\ng sub f a\ng2 mul g g\n\
        h min g2 f\nb neg h\n",
    ),
    (
        "set f neg k",
        "@ text 64\nk var-z\nf neg k\na var-x\ng sub f a\ng2 mul g g\nh min g2 f\nb neg h\n",
    ),
    (
        "set f const 2",
        "@ text 77\nk var-z\nf const 2.0000000000\na var-x\ng sub f a\ng2 mul g g\n\
        h min g2 f\nb neg h\n",
    ),
    (
        "cut k",
        "@ text 69\nf const 2.0000000000\na var-x\ng sub f a\ng2 mul g g\nh min g2 f\nb neg h\n",
    ),
    (
        "put h k abs f",
        "@ text 77\nf const 2.0000000000\na var-x\ng sub f a\ng2 mul g g\nk abs f\n\
        h min g2 f\nb neg h\n",
    ),
    (
        "set b add k k",
        "@ text 79\nf const 2.0000000000\na var-x\ng sub f a\ng2 mul g g\nk abs f\n\
        h min g2 f\nb add k k\n",
    ),
    (
        "set b square g2",
        "@ text 81\nf const 2.0000000000\na var-x\ng sub f a\ng2 mul g g\nk abs f\n\
        h min g2 f\nb square g2\n",
    ),
    (
        "cut k",
        "@ text 73\nf const 2.0000000000\na var-x\ng sub f a\ng2 mul g g\nh min g2 f\n\
        b square g2\n",
    ),
    (
        "add k div b h",
        "@ text 83\nf const 2.0000000000\na var-x\ng sub f a\ng2 mul g g\nh min g2 f\n\
        b square g2\nk div b h\n",
    ),
    (
        "cut k",
        "@ text 73\nf const 2.0000000000\na var-x\ng sub f a\ng2 mul g g\nh min g2 f\n\
        b square g2\n",
    ),
    (
        "cut b",
        "@ text 61\nf const 2.0000000000\na var-x\ng sub f a\ng2 mul g g\nh min g2 f\n",
    ),
    (
        "cut h",
        "@ text 50\nf const 2.0000000000\na var-x\ng sub f a\ng2 mul g g\n",
    ),
];

#[test]
fn edits_change_the_model_one_after_the_other(rt: HostRuntime) -> Result<(), Fail> {
    let ending = replay_edits(rt.alloc(), &ACCEPTED, "")?;
    assert_eq!(rt; ending, Ending::wanted(Status::Done));
    Ok(())
}

// Edits after which the model is what it was.
const ROUND: &str = "put a t const 1\nset b add t t\nput c u neg b\nset b var-y\nadd v mul u c\n\
    cut t\nput a w var-z\ncut v\nset u abs w\ncut u\ncut w\n";

// Edits that are refused after ten such rounds, in the lines from 115 on.
const REFUSED_LATER: &str = "set d var-x\nset b neg t\nset b neg c\nadd d neg u\nadd a var-z\n\
    put w d var-x\nput a d neg v\nput b a var-z\nput b d neg c\ncut t\ncut a\ncut b\n";

// What is written of them, of the text behind them, and of cuts that leave one clause.
const WRITTEN_LATER: &str = "@ refused 115 UnknownName\n@ refused 116 UnknownName\n\
    @ refused 117 NotEarlier\n@ refused 118 UnknownName\n@ refused 119 DoubleName\n\
    @ refused 120 UnknownName\n@ refused 121 UnknownName\n@ refused 122 DoubleName\n\
    @ refused 123 NotEarlier\n@ refused 124 UnknownName\n@ refused 125 InUse\n\
    @ refused 126 InUse\n@ text 26\na var-x\nb var-y\nc add a b\n@ refused 130 LastClause\n";

// A script of ten rounds, and of what comes later.
fn long_script(alloc: Global) -> Result<String, AllocError> {
    let mut script = String::from_str(alloc, SUM)?;
    script.push_str("%%\n")?;
    for _ in 0..10u32 {
        script.push_str(ROUND)?;
    }
    script.push_str(REFUSED_LATER)?;
    script.push_str("text\ncut c\ncut b\ncut a\n")?;
    Ok(script)
}

#[test]
fn each_fault_is_told_after_a_hundred_edits(rt: HostRuntime) -> Result<(), Fail> {
    let script = long_script(rt.alloc())?;
    let ending = replay(rt.alloc(), &script, WRITTEN_LATER.as_bytes())?;
    assert_eq!(rt; ending, Ending::wanted(Status::Done));
    Ok(())
}

/// A script over a model of as many clauses as there may be, all of them x.
pub fn full_script(alloc: Global, commands: &str) -> Result<String, AllocError> {
    let mut script = String::new(alloc);
    for number in 0..65_535u32 {
        writeln!(script, "{number} var-x")?;
    }
    script.push_str(commands)?;
    Ok(script)
}

// Commands over that, and what they write.
const FULL: &str =
    "%%\nadd a neg b\nadd 0 var-y\nadd a var-y\nput 0 a neg 1\nput 1 a var-y\ncut 0\n\
    add a const 0\nrender w=1 h=1\n";

const FULL_WRITTEN: &[u8] = b"@ refused 65537 UnknownName\n@ refused 65538 DoubleName\n\
    @ refused 65539 Full\n@ refused 65540 NotEarlier\n@ refused 65541 Full\n\
    @ render 12\nP5\n1 1\n255\n\x00";

#[test]
fn a_full_model_takes_no_clause_more(rt: HostRuntime) -> Result<(), Fail> {
    let script = full_script(rt.alloc(), FULL)?;
    let ending = replay(rt.alloc(), &script, FULL_WRITTEN)?;
    assert_eq!(rt; ending, Ending::wanted(Status::Done));
    Ok(())
}

// A model of 65,535 clauses: one that is not live, x, and then 0 in a chain of negations; and a
// script of an image, and of a thousand more, each after an edit of the clause that is not live.
fn chain_script(alloc: Global) -> Result<String, AllocError> {
    let mut script = String::from_str(alloc, "u const 5\nx var-x\nn0 sub x x\n")?;
    for last in 0..65_532u32 {
        writeln!(script, "n{} neg n{last}", last + 1)?;
    }
    script.push_str("%%\nrender w=32 h=32\ncost\n")?;
    for _ in 0..1000u32 {
        script.push_str("set u const 7\nrender w=32 h=32\n")?;
    }
    script.push_str("cost\n")?;
    Ok(script)
}

// Adds the frame of an image of 32 rows and columns, all of which is outside.
fn push_black_frame(written: &mut Vec<u8>) -> Result<(), AllocError> {
    written.extend_from_slice(b"@ render 1037\nP5\n32 32\n255\n")?;
    for _ in 0..1024u32 {
        written.push(0)?;
    }
    Ok(())
}

// What it writes. 65,534 steps are live: at each of 1024 samples, and over each of 21 boxes.
fn chain_frames(alloc: Global) -> Result<Vec<u8>, AllocError> {
    let mut written = Vec::new(alloc);
    push_black_frame(&mut written)?;
    written.extend_from_slice(b"@ cost 17\n67106816 1376214\n")?;
    for _ in 0..1000u32 {
        push_black_frame(&mut written)?;
    }
    written.extend_from_slice(b"@ cost 4\n0 0\n")?;
    Ok(written)
}

#[test]
fn a_clause_that_is_not_live_costs_nothing(rt: HostRuntime) -> Result<(), Fail> {
    let script = chain_script(rt.alloc())?;
    let written = chain_frames(rt.alloc())?;
    let ending = replay(rt.alloc(), &script, &written)?;
    assert_eq!(rt; ending, Ending::wanted(Status::Done));
    Ok(())
}

#[test]
fn images_of_other_lists_take_the_work_that_they_take_alone(rt: HostRuntime) -> Result<(), Fail> {
    // Three samples of three clauses, and then three of two, whose boxes are leaves.
    let input =
        "x var-x\nc const 0.5\nf sub x c\n%%\nrender w=3 h=1\ncut f\nadd f neg x\nrender w=3 h=1\n";
    let frames = Trial::new(&["replay"], input.as_bytes()).written(rt.alloc(), 2048)?;
    assert_eq!(rt; frames.status, Status::Done);
    assert_eq!(rt; frames.work.points, 15);
    assert_eq!(rt; frames.work.spans, 5);
    Ok(())
}
