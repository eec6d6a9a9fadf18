// The clauses of a disc, put last in a model in the making.
ghost use Rattle.std.specs.Prelude.{◌≡◌, ◌≢◌, ◌+◌, ◌<◌, ◌≤◌, ◌∷◌, [], ◌++◌, get_or, length, pos, IfOk, OnOk};
ghost use Rattle.fixed_ops.specs.Arity.{arity_of};
ghost use Rattle.solid_model.specs.Clauses.{AreInOrder, FitsAt};
ghost use Rattle.model_forge.specs.Fresh.{IsNext, TakesFrom};
ghost use Rattle.model_forge.specs.Placed.{circle_at, clause_at, disc_at, edge_at, joined_at, square_at};

use crate::disc::{Disc, Role};
use crate::label::Label;
use fixed_ops::{Fx, Op};
use solid_model::{ModelBuilder, PushFault};
use std::alloc::AllocError;

/// The place of the clause of x, and that of the clause of y.
const X: u32 = 0;

const Y: u32 = 1;

/// Puts the clauses of a disc last, each after the first one joined to the solid of the discs
/// before it, whose place is the last.
pub(crate) fn push_disc(
    builder: &mut ModelBuilder,
    number: u32,
    disc: &Disc,
) -> Result<(), AllocError>
    requires axes { 2 ≤ length builder.old }
    requires few { number < 5000 }
    requires next { TakesFrom builder.old 97 number }
    ensures in_order { AreInOrder builder.old }
    ensures clauses { OnOk result (builder.new ≡ builder.old ++ disc_at (length builder.old) number
        disc.now.x disc.now.y disc.now.radius disc.now.role) }
    ensures later { OnOk result (TakesFrom builder.new 118 number) }
{
    let solid = builder.len() - 1;
    let circle = push_circle(builder, number, disc)?;
    if number > 0 {
        push_joined(builder, number, solid, circle, disc.role)?;
    }
    Ok(())
}

// Puts the clauses of a disc alone last, and gives the place of the last of them.
fn push_circle(builder: &mut ModelBuilder, number: u32, disc: &Disc) -> Result<u32, AllocError>
    requires axes { 2 ≤ length builder.old }
    requires few { number < 5000 }
    requires next { TakesFrom builder.old 97 number }
    ensures clauses { OnOk result (builder.new ≡ builder.old
        ++ circle_at (length builder.old) number disc.now.x disc.now.y disc.now.radius) }
    ensures place { IfOk result (λ place. place ≡ length builder.old + 9) }
    ensures later { OnOk result (TakesFrom builder.new 110 number) }
{
    let across = push_square(builder, number, [b'a', b'b', b'c'], X, disc.x)?;
    let up = push_square(builder, number, [b'd', b'e', b'f'], Y, disc.y)?;
    push_edge(builder, number, across, up, disc.radius)
}

// Puts the square of the way from the middle along an axis last: the middle, the way and its
// square, whose letters are given. Gives the place of the square.
fn push_square(
    builder: &mut ModelBuilder,
    number: u32,
    letters: [u8; 3],
    axis: u32,
    middle: Fx,
) -> Result<u32, AllocError>
    requires axis { axis < length builder.old }
    requires few { number < 5000 }
    requires next { TakesFrom builder.old (get_or letters 0 0) number }
    requires second { get_or letters 0 0 < get_or letters 1 0 }
    requires third { get_or letters 1 0 < get_or letters 2 0 }
    ensures clauses { OnOk result (builder.new ≡ builder.old
        ++ square_at (length builder.old) number letters axis middle) }
    ensures place { IfOk result (λ place. place ≡ length builder.old + 2) }
    ensures later { OnOk result (TakesFrom builder.new (get_or letters 2 0 + 1) number) }
{
    let place = push_constant(builder, Label::new(letters[0], number), middle)?;
    let way = push_binary(
        builder,
        Label::new(letters[1], number),
        Op::Sub,
        axis,
        place,
    )?;
    push_unary(builder, Label::new(letters[2], number), Op::Square, way)
}

// Puts the square of the distance less that of the radius last, and gives the place of the
// difference. `across` and `up` are the places of the squares of the ways along both axes.
fn push_edge(
    builder: &mut ModelBuilder,
    number: u32,
    across: u32,
    up: u32,
    radius: Fx,
) -> Result<u32, AllocError>
    requires across { across < length builder.old }
    requires up { up < length builder.old }
    requires few { number < 5000 }
    requires next { TakesFrom builder.old 103 number }
    ensures clauses { OnOk result (builder.new ≡ builder.old
        ++ edge_at (length builder.old) number across up radius) }
    ensures place { IfOk result (λ place. place ≡ length builder.old + 3) }
    ensures later { OnOk result (TakesFrom builder.new 110 number) }
{
    let distance = push_binary(builder, Label::new(b'g', number), Op::Add, across, up)?;
    let radius = push_constant(builder, Label::new(b'h', number), radius)?;
    let reach = push_unary(builder, Label::new(b'k', number), Op::Square, radius)?;
    push_binary(builder, Label::new(b'm', number), Op::Sub, distance, reach)
}

// Puts the solid of a disc and those before it last.
fn push_joined(
    builder: &mut ModelBuilder,
    number: u32,
    before: u32,
    circle: u32,
    role: Role,
) -> Result<(), AllocError>
    requires before { before < length builder.old }
    requires circle { circle + 1 ≡ length builder.old }
    requires few { number < 5000 }
    requires next { TakesFrom builder.old 110 number }
    ensures clauses { OnOk result (builder.new ≡ builder.old ++ joined_at before circle number role) }
    ensures later { OnOk result (TakesFrom builder.new 118 number) }
{
    let union = Label::new(b'u', number);
    match role {
        Role::Solid => push_binary(builder, union, Op::Min, before, circle)?,
        Role::Hole => {
            let outside = push_unary(builder, Label::new(b'n', number), Op::Neg, circle)?;
            push_binary(builder, union, Op::Max, before, outside)?
        }
    };
    Ok(())
}

// Puts a constant last, and gives its place.
fn push_constant(builder: &mut ModelBuilder, label: Label, value: Fx) -> Result<u32, AllocError>
    requires few { label.disc < 5000 }
    requires next { IsNext builder.old label.letter label.disc }
    ensures clause { OnOk result (builder.new ≡ builder.old
        ++ clause_at label.letter label.disc Op.Const 0 0 value ∷ []) }
    ensures place { IfOk result (λ place. place ≡ length builder.old) }
    ensures later { OnOk result (TakesFrom builder.new (label.letter + 1) label.disc) }
{
    push(builder, label, Op::Const, 0, 0, value)
}

// Puts an operation on one clause last, and gives its place.
fn push_unary(builder: &mut ModelBuilder, label: Label, op: Op, a: u32) -> Result<u32, AllocError>
    requires few { label.disc < 5000 }
    requires next { IsNext builder.old label.letter label.disc }
    requires arity { arity_of op ≡ 1 }
    requires a { a < length builder.old }
    ensures clause { OnOk result (builder.new ≡ builder.old
        ++ clause_at label.letter label.disc op a 0 (pos 0) ∷ []) }
    ensures place { IfOk result (λ place. place ≡ length builder.old) }
    ensures later { OnOk result (TakesFrom builder.new (label.letter + 1) label.disc) }
{
    push(builder, label, op, a, 0, Fx::from_raw(0))
}

// Puts an operation on two clauses last, and gives its place.
fn push_binary(
    builder: &mut ModelBuilder,
    label: Label,
    op: Op,
    a: u32,
    b: u32,
) -> Result<u32, AllocError>
    requires few { label.disc < 5000 }
    requires next { IsNext builder.old label.letter label.disc }
    requires arity { arity_of op ≡ 2 }
    requires a { a < length builder.old }
    requires b { b < length builder.old }
    ensures clause { OnOk result (builder.new ≡ builder.old
        ++ clause_at label.letter label.disc op a b (pos 0) ∷ []) }
    ensures place { IfOk result (λ place. place ≡ length builder.old) }
    ensures later { OnOk result (TakesFrom builder.new (label.letter + 1) label.disc) }
{
    push(builder, label, op, a, b, Fx::from_raw(0))
}

// Puts a clause last, whose name is new, and gives its place. Only memory may be refused.
#[tactic(auto, using(crate::proofs::FreshLemmas::no_fault, crate::proofs::FreshLemmas::next_after))]
fn push(
    builder: &mut ModelBuilder,
    label: Label,
    op: Op,
    a: u32,
    b: u32,
    value: Fx,
) -> Result<u32, AllocError>
    requires few { label.disc < 5000 }
    requires next { IsNext builder.old label.letter label.disc }
    requires fits { FitsAt (length builder.old) op a b value }
    ensures clause { OnOk result (builder.new ≡ builder.old
        ++ clause_at label.letter label.disc op a b value ∷ []) }
    ensures place { IfOk result (λ place. place ≡ length builder.old) }
    ensures later { OnOk result (TakesFrom builder.new (label.letter + 1) label.disc) }
{
    let place = builder.len();
    let name = label.name();
    match builder.push(name.as_slice(), op, a, b, value) {
        Ok(()) => Ok(place),
        Err(PushFault::NoMemory) => Err(AllocError),
        Err(PushFault::DoubleName | PushFault::Full) => unreachable!(),
    }
}
