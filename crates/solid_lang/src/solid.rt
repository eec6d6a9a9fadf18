// A solid as a tree of forms.

use fixed_ops::Fx;

/// A solid: a ball, a box or a cylinder, another one moved or scaled, or two joined. A point is
/// inside where the value of the solid there is below 0.
#[derive(Debug, Drop)]
pub enum Solid {
    /// The ball of this radius around the origin.
    Ball(Fx),
    /// The box around the origin with these halves of its sides along x, y and z.
    Block(Fx, Fx, Fx),
    /// The cylinder around the axis of z of this radius and half of this height.
    Cylinder(Fx, Fx),
    /// The solid moved by these along x, y and z.
    Move(Fx, Fx, Fx, Box<Solid>),
    /// The solid made this many times as large.
    Scale(Fx, Box<Solid>),
    /// What is inside one of both or in both.
    Union(Box<Solid>, Box<Solid>),
    /// What is inside both.
    Intersect(Box<Solid>, Box<Solid>),
    /// What is inside the first and not inside the second.
    Difference(Box<Solid>, Box<Solid>),
}
