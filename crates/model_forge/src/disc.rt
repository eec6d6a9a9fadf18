// A disc, made of four numbers.
ghost use Rattle.std.specs.Prelude.{◌≡◌};
ghost use Rattle.model_forge.specs.Discs.{centre_of, radius_of, role_of};
ghost use Rattle.model_forge.specs.Stream.{drawn, state_after};

use crate::stream::Stream;
use fixed_ops::Fx;

/// What a disc does to the discs before it.
#[derive(Clone, Copy, Debug, PartialEq, Eq)]
pub(crate) enum Role {
    /// It joins them.
    Solid,
    /// It is cut out of them.
    Hole,
}

/// A disc: its centre, its radius, and what it does to the discs before it.
#[derive(Clone, Copy, Debug)]
pub(crate) struct Disc {
    pub x: Fx,
    pub y: Fx,
    pub radius: Fx,
    pub role: Role,
}

impl Disc {
    /// The disc of the next four numbers of a stream.
    pub(crate) fn drawn(stream: &mut Stream) -> Disc
        ensures state { stream.new.state ≡ state_after stream.old.state 4 }
        ensures x { result.x ≡ centre_of (drawn stream.old.state 0) }
        ensures y { result.y ≡ centre_of (drawn stream.old.state 1) }
        ensures radius { result.radius ≡ radius_of (drawn stream.old.state 2) }
        ensures role { result.role ≡ role_of (drawn stream.old.state 3) }
    {
        Disc {
            x: centre(stream.draw()),
            y: centre(stream.draw()),
            radius: radius(stream.draw()),
            role: drawn_role(stream.draw()),
        }
    }
}

// A place from -1 up to less than 1, in steps of 2^-16.
#[inline]
fn centre(number: u32) -> Fx
    ensures { result ≡ centre_of number }
{
    Fx::from_raw((i64::from(number % 131_072) - 65_536) * 65_536)
}

// A radius from 2^-16 to 2^-4, in steps of 2^-16.
#[inline]
fn radius(number: u32) -> Fx
    ensures { result ≡ radius_of number }
{
    Fx::from_raw(i64::from(1 + number % 4096) * 65_536)
}

// One disc of four is a hole.
#[inline]
fn drawn_role(number: u32) -> Role
    ensures { result ≡ role_of number }
{
    if number % 4 == 0 {
        Role::Hole
    } else {
        Role::Solid
    }
}
