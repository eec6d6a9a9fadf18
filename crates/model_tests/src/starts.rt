// Models from a text, from a clause, built by places, made from a seed, and compiled.
use clause_reader::read_model;
use fixed_ops::{Fx, Op};
use model_forge::forge_model;
use solid_lang::{Solid, SolidFault, compile};
use solid_model::{EditFault, Form, Model, ModelBuilder, Name, PushFault};
use std::alloc::{AllocError, Global};
use std::process::Abort;
use std::test::Fail;

// The raw number of 1.
const ONE: i64 = 1 << 32;

/// x * x + y * y - 0.5, whose inside is a disc.
pub(crate) const DISC: &[u8] =
    b"a var-x\nb var-y\nc mul a a\nd mul b b\ne add c d\nr const 0.5\nf sub e r";

/// Where a model comes from.
#[derive(Clone, Copy)]
pub(crate) enum Start<'a> {
    /// A text.
    Text(&'a [u8]),
    /// One clause, x, of the name a.
    X,
    /// x and its square, which are built by places.
    Square,
    /// So many discs of a seed.
    Discs(u64, u32),
    /// The box of half sides of 1, out of which a ball of radius 0.25 is cut at x = 0.5.
    CutBox,
}

/// A model from such a place.
pub(crate) fn started(rt: &impl Abort, alloc: Global, start: Start<'_>) -> Result<Model, Fail> {
    match start {
        Start::Text(text) => read(alloc, text),
        Start::X => Ok(first(alloc, x(alloc))??),
        Start::Square => square(rt, alloc),
        Start::Discs(seed, solids) => discs(alloc, seed, solids),
        Start::CutBox => Ok(cut_box(alloc)??),
    }
}

/// The model of a text.
pub(crate) fn read(alloc: Global, text: &[u8]) -> Result<Model, Fail> {
    if text.len() > 1000 {
        return Err(Fail::new("a text that is too long"));
    }
    Ok(read_model(alloc, text)?)
}

/// The model of a first clause, whose name is a.
pub(crate) fn first(alloc: Global, form: Form) -> Result<Result<Model, EditFault>, Fail> {
    let name = Name::new(alloc, b"a")?;
    Ok(Model::first(alloc, name, form))
}

fn x(alloc: Global) -> Form {
    Form::new(Op::X, Vec::new(alloc), Fx::from_raw(0))
}

fn discs(alloc: Global, seed: u64, solids: u32) -> Result<Model, Fail> {
    if solids == 0 || solids > 5000 {
        return Err(Fail::new("a number of discs that is out of range"));
    }
    Ok(forge_model(alloc, seed, solids)?)
}

fn square(rt: &impl Abort, alloc: Global) -> Result<Model, Fail> {
    let mut builder = ModelBuilder::with_room(alloc, 2);
    push_square(rt, &mut builder);
    match builder.finish() {
        Some(model) => Ok(model),
        None => Err(Fail::new("no clause")),
    }
}

// Builds a clause x and its square. The name x is then refused.
fn push_square(rt: &impl Abort, builder: &mut ModelBuilder) {
    let zero = Fx::from_raw(0);
    let pushed = builder.push(b"x", Op::X, 0, 0, zero);
    assert!(rt; pushed == Ok(()));
    match builder.position(b"x") {
        Some(at) => assert!(rt; builder.push(b"s", Op::Square, at, 0, zero) == Ok(())),
        None => assert!(rt; false, "x stands nowhere"),
    }
    let again = builder.push(b"x", Op::Y, 0, 0, zero);
    assert!(rt; again == Err(PushFault::DoubleName));
    assert!(rt; builder.len() == 2 && builder.position(b"y").is_none());
}

// A ball that is cut out of a box.
fn cut_box(alloc: Global) -> Result<Result<Model, SolidFault>, AllocError> {
    let one = Fx::from_raw(ONE);
    let none = Fx::from_raw(0);
    let ball = Box::new(alloc, Solid::Ball(Fx::from_raw(ONE / 4)))?;
    let moved = Box::new(alloc, Solid::Move(Fx::from_raw(ONE / 2), none, none, ball))?;
    let block = Box::new(alloc, Solid::Block(one, one, one))?;
    Ok(compile(alloc, &Solid::Difference(block, moved)))
}
