// Sessions that are edited, drawn and taken back, step by step, with what each step takes, worked out by
// hand.
use crate::fixtures::{BALL, BARS, Change};
use crate::playing::{Kind, Step, play_all};
use Change::{Add, Cut, Put, Set};
use Step::{Bytes, Cost, Edit, Image, Mesh, Undo};
use fixed_ops::Tally;
use solid_model::EditFault;

// Of nine samples or columns the three of the bottom row are inside, where y is -1.
const BOTTOM: &[u8] = b"P5\n3 3\n255\n\x00\x00\x00\x00\x00\x00\xff\xff\xff";

const BOTTOM_TOPS: &[u8] = b"P5\n3 3\n3\n\x00\x00\x00\x00\x00\x00\x03\x03\x03";

// The middle one of 27 points lies on the plane, and so outside, as all others do.
const NO_MESH: &[u8] = b"ply\nformat ascii 1.0\nelement vertex 0\nproperty double x\n\
    property double y\nproperty double z\nelement face 0\n\
    property list uchar int vertex_indices\nend_header\n";

// The lesser of 0, whose hull over a box is wider, and of a constant that is never chosen.
const ZERO: &[u8] = b"x var-x\nz sub x x\nk const 9\nm min z k\n";

const PLANE: &[u8] = b"x var-x\nc const 0.5\nf sub x c\n";

// The texts of the plane after the edits of a row, one after another.
const OPENED: &[u8] = b"x var-x\nc const 0.5000000000\nf sub x c\n";

const WITH_SET: &[u8] = b"x var-x\nc const -0.5000000000\nf sub x c\n";

const WITH_PUT: &[u8] = b"w var-y\nx var-x\nc const -0.5000000000\nf sub x c\n";

const WITH_ADD: &[u8] = b"w var-y\nx var-x\nc const -0.5000000000\nf sub x c\ng min f w\n";

const WITH_TURN: &[u8] = b"w var-y\nx var-x\nc const -0.5000000000\nf sub c x\ng min f w\n";

// Models, each with steps one after another.
const SESSIONS: [(&[u8], &[Step]); 19] = [
    (
        b"f var-x\n",
        &[
            Edit(Set(b"f", b"var-y"), Ok(())),
            Cost(0, 0),
            Bytes(Kind::Image, BOTTOM),
            Cost(9, 1),
            // A refused edit leaves the plane, and like all other frames it leaves the image and its cost.
            Edit(Cut(b"f"), Err(EditFault::LastClause)),
            Bytes(Kind::Height, BOTTOM_TOPS),
            Bytes(Kind::Mesh, NO_MESH),
            Bytes(Kind::Text, b"f var-y\n"),
            Cost(9, 1),
            Bytes(Kind::Image, BOTTOM),
            Cost(0, 0),
        ],
    ),
    (
        BARS,
        &[
            Image(32, 1, 192, 54),
            Image(32, 1, 0, 0),
            // Another view, and the first one again.
            Image(31, 1, 186, 54),
            Image(32, 1, 192, 54),
            // An edit and one that gives the old form again take nothing.
            Edit(Set(b"q", b"const 0.625"), Ok(())),
            Edit(Set(b"q", b"const 0.5"), Ok(())),
            Image(32, 1, 0, 0),
            // Nothing is inside, or all is, and no box below the first one is looked into.
            Edit(Set(b"r", b"const -9"), Ok(())),
            Image(32, 1, 0, 10),
            Edit(Set(b"r", b"const 0.25"), Ok(())),
            Image(32, 1, 192, 54),
            Edit(Set(b"r", b"const 9"), Ok(())),
            Image(32, 1, 0, 10),
            Edit(Set(b"r", b"const 0.25"), Ok(())),
            Image(32, 1, 192, 54),
            // Clauses that the output does not need.
            Edit(Put(b"r", b"s", b"const 7"), Ok(())),
            Image(32, 1, 0, 0),
            Edit(Put(b"x", b"y", b"var-y"), Ok(())),
            Image(32, 1, 0, 0),
            // One step more in each list, and one less.
            Edit(Add(b"g", b"min f f"), Ok(())),
            Image(32, 1, 224, 61),
            Edit(Cut(b"g"), Ok(())),
            Image(32, 1, 192, 54),
        ],
    ),
    (
        BARS,
        &[
            // Each end of a bar lies between two leaves, until a bar ends with the row.
            Image(64, 1, 0, 102),
            Edit(Set(b"q", b"const 0.75"), Ok(())),
            Image(64, 1, 48, 62),
            Edit(Set(b"q", b"const 0.5"), Ok(())),
            Image(64, 1, 0, 66),
            Edit(Set(b"p", b"const -0.75"), Ok(())),
            Image(64, 1, 48, 62),
        ],
    ),
    (
        ZERO,
        &[
            // The first box alone receives the constant, and evaluates what it hands on.
            Image(8, 8, 128, 4),
            Edit(Set(b"k", b"const 8"), Ok(())),
            Image(8, 8, 128, 4),
        ],
    ),
    (
        ZERO,
        &[
            // Its halves evaluate that.
            Image(16, 1, 32, 8),
            Edit(Set(b"k", b"const 8"), Ok(())),
            Image(16, 1, 0, 4),
        ],
    ),
    // Meshes.
    (
        BARS,
        &[
            Edit(Set(b"q", b"const 0.5"), Ok(())),
            Mesh([4; 3], 1050, 602),
            // Twice the same.
            Edit(Set(b"q", b"const 0.5"), Ok(())),
            Mesh([4; 3], 0, 0),
            // One bar moves, and moves back.
            Edit(Set(b"q", b"const 0.625"), Ok(())),
            Mesh([4; 3], 750, 410),
            Edit(Set(b"q", b"const 0.5"), Ok(())),
            Mesh([4; 3], 750, 410),
            // Another grid, and the first one again.
            Mesh([3; 3], 592, 318),
            Mesh([4; 3], 1050, 602),
        ],
    ),
    (
        BARS,
        &[
            Mesh([8; 3], 3564, 4186),
            // All is inside, and the border alone works.
            Edit(Set(b"r", b"const 9"), Ok(())),
            Mesh([8; 3], 4296, 3674),
            Edit(Set(b"r", b"const 0.25"), Ok(())),
            Mesh([8; 3], 3564, 4186),
            // All is outside.
            Edit(Set(b"r", b"const -9"), Ok(())),
            Mesh([8; 3], 0, 10),
            Edit(Set(b"r", b"const 0.25"), Ok(())),
            Mesh([8; 3], 3564, 4186),
        ],
    ),
    (
        BALL,
        &[
            Mesh([2; 3], 270, 90),
            Mesh([2; 3], 0, 0),
            Edit(Set(b"r", b"const 0.3"), Ok(())),
            Mesh([2; 3], 270, 90),
        ],
    ),
    (
        BALL,
        &[
            // The box of all cells is one cell.
            Mesh([1; 3], 80, 10),
            Edit(Set(b"r", b"const 9"), Ok(())),
            Mesh([1; 3], 80, 10),
            Mesh([1; 3], 0, 0),
            Edit(Set(b"r", b"const -9"), Ok(())),
            Mesh([1; 3], 0, 10),
            Edit(Set(b"r", b"const 0.25"), Ok(())),
            Mesh([1; 3], 80, 10),
        ],
    ),
    (
        BALL,
        &[
            // Halves of two cells, and of one, side by side.
            Mesh([3; 3], 640, 360),
            Edit(Set(b"r", b"const 0.5"), Ok(())),
            Mesh([3; 3], 640, 360),
            Mesh([3; 3], 0, 0),
            // A list that grows by steps, and shrinks.
            Edit(Set(b"e", b"max d c"), Ok(())),
            Mesh([3; 3], 640, 360),
            Edit(Set(b"e", b"neg x"), Ok(())),
            Mesh([3; 3], 640, 360),
            Edit(Set(b"e", b"add d c"), Ok(())),
            Mesh([3; 3], 640, 360),
        ],
    ),
    (
        BARS,
        &[
            // As many cells in all, and other numbers of them along the axes.
            Mesh([4, 2, 3], 504, 282),
            Mesh([3, 2, 4], 540, 298),
            Mesh([2, 3, 4], 520, 282),
            Edit(Set(b"q", b"const 0.625"), Ok(())),
            Mesh([2, 3, 4], 400, 210),
            // One cell along an axis.
            Mesh([8, 1, 17], 1512, 1166),
            Edit(Set(b"q", b"const 0.5"), Ok(())),
            Mesh([8, 1, 17], 648, 602),
        ],
    ),
    (
        ZERO,
        &[
            Mesh([3; 3], 128, 72),
            Edit(Set(b"k", b"const 8"), Ok(())),
            Mesh([3; 3], 0, 4),
        ],
    ),
    (
        // A clause that the output does not need.
        b"u const 5\nx var-x\n",
        &[
            Mesh([4; 3], 125, 73),
            Edit(Set(b"u", b"const 7"), Ok(())),
            Mesh([4; 3], 0, 0),
        ],
    ),
    // Other frames and refused edits leave the last mesh and the last image.
    (
        BARS,
        &[
            Mesh([4; 3], 1050, 602),
            Image(32, 1, 192, 54),
            Edit(Cut(b"x"), Err(EditFault::InUse(3))),
            Mesh([4; 3], 0, 0),
            Cost(192, 54),
            Image(32, 1, 0, 0),
        ],
    ),
    (
        b"f var-y\n",
        &[
            Mesh([4; 3], 125, 73),
            Bytes(Kind::Image, BOTTOM),
            Bytes(Kind::Height, BOTTOM_TOPS),
            Edit(Cut(b"f"), Err(EditFault::LastClause)),
            Mesh([4; 3], 0, 0),
            Cost(9, 1),
            Bytes(Kind::Height, BOTTOM_TOPS),
            Bytes(Kind::Image, BOTTOM),
            Cost(0, 0),
        ],
    ),
    // Edits that are taken back, while the last image stands.
    (
        BARS,
        &[
            Undo(Err(EditFault::NothingToUndo)),
            Image(32, 1, 192, 54),
            Edit(Set(b"q", b"const 0.625"), Ok(())),
            Undo(Ok(())),
            Image(32, 1, 0, 0),
            Edit(Set(b"q", b"const 0.625"), Ok(())),
            Image(32, 1, 128, 50),
            Undo(Ok(())),
            Cost(128, 50),
            Image(32, 1, 96, 42),
            Edit(Cut(b"f"), Ok(())),
            Undo(Ok(())),
            Image(32, 1, 0, 0),
            Undo(Err(EditFault::NothingToUndo)),
            Cost(0, 0),
        ],
    ),
    // And while the last mesh does.
    (
        BARS,
        &[
            Mesh([4; 3], 1050, 602),
            Edit(Set(b"q", b"const 0.625"), Ok(())),
            Undo(Ok(())),
            Mesh([4; 3], 0, 0),
            Edit(Cut(b"f"), Ok(())),
            Undo(Ok(())),
            Mesh([4; 3], 0, 0),
        ],
    ),
    // An edit of each kind, and the text once each of them is taken back.
    (
        PLANE,
        &[
            Edit(Set(b"c", b"const -0.5"), Ok(())),
            Bytes(Kind::Text, WITH_SET),
            Edit(Put(b"x", b"w", b"var-y"), Ok(())),
            Bytes(Kind::Text, WITH_PUT),
            Edit(Add(b"g", b"min f w"), Ok(())),
            Bytes(Kind::Text, WITH_ADD),
            Edit(Set(b"f", b"sub c x"), Ok(())),
            Bytes(Kind::Text, WITH_TURN),
            // What is refused puts nothing before what takes the last edit back.
            Edit(Cut(b"f"), Err(EditFault::InUse(4))),
            Edit(Add(b"c", b"var-z"), Err(EditFault::DoubleName)),
            Edit(Set(b"c", b"neg f"), Err(EditFault::NotEarlier)),
            Edit(Cut(b"k"), Err(EditFault::UnknownName)),
            Undo(Ok(())),
            Bytes(Kind::Text, WITH_ADD),
            Undo(Ok(())),
            Bytes(Kind::Text, WITH_PUT),
            Undo(Ok(())),
            Bytes(Kind::Text, WITH_SET),
            Undo(Ok(())),
            Bytes(Kind::Text, OPENED),
            Undo(Err(EditFault::NothingToUndo)),
            Bytes(Kind::Text, OPENED),
        ],
    ),
    // Clauses that were taken out: the output and the one before it, and the first.
    (
        PLANE,
        &[
            Edit(Set(b"c", b"const -0.5"), Ok(())),
            Edit(Put(b"x", b"w", b"var-y"), Ok(())),
            Edit(Cut(b"f"), Ok(())),
            Edit(Cut(b"c"), Ok(())),
            Bytes(Kind::Text, b"w var-y\nx var-x\n"),
            Edit(Cut(b"w"), Ok(())),
            Edit(Cut(b"x"), Err(EditFault::LastClause)),
            Bytes(Kind::Text, b"x var-x\n"),
            Undo(Ok(())),
            Bytes(Kind::Text, b"w var-y\nx var-x\n"),
            Undo(Ok(())),
            Undo(Ok(())),
            Bytes(Kind::Text, WITH_PUT),
            // After these another edit, and an undo of it and of those before.
            Edit(Add(b"g", b"min f w"), Ok(())),
            Bytes(Kind::Text, WITH_ADD),
            Undo(Ok(())),
            Undo(Ok(())),
            Bytes(Kind::Text, WITH_SET),
            // The same form again.
            Edit(Set(b"c", b"const -0.5"), Ok(())),
            Undo(Ok(())),
            Bytes(Kind::Text, WITH_SET),
            Undo(Ok(())),
            Bytes(Kind::Text, OPENED),
        ],
    ),
];

// A tally whose counts stand at their ends where another one has counted something of each.
fn at_its_end(tally: &Tally) -> Tally {
    let mut end = Tally::new();
    let mut other = Tally::new();
    end.join(tally);
    for _ in 0..64 {
        other.join(&end);
        end.join(&other);
    }
    end
}

const FIRST: [(&[u8], &[Step]); 1] = [(BARS, &[Image(32, 1, 192, 54)])];

#[test]
fn each_step_answers_and_takes_what_it_should(rt: HostRuntime) {
    let mut tally = Tally::new();
    play_all(&rt, rt.alloc(), &FIRST, &mut tally);
    // What is told stays the same where the caller's tally can count no more.
    let mut full = at_its_end(&tally);
    assert!(rt; [full.points(), full.spans(), full.corners()] == [u64::MAX; 3]);
    play_all(&rt, rt.alloc(), &SESSIONS, &mut tally);
    play_all(&rt, rt.alloc(), &SESSIONS, &mut full);
}
