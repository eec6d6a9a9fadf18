// Contours.
use crate::PlaneVertex;
use std::marker::Model;

/// A contour: its vertices, numbered from 0, and closed loops along them, with the inside on their
/// left.
#[derive(Debug, Drop)]
pub struct Loops {
    /// The vertices, by y, then by x of the lower points of their edges, then by direction.
    pub vertices: Vec<PlaneVertex>,
    /// The numbers of the vertices of the loops, one loop after the other. Each loop starts at its
    /// lowest vertex, and the loops are ordered by these.
    pub order: Vec<u32>,
    /// For each loop, the place in `order` after it.
    pub ends: Vec<u32>,
}

impl Model for Loops {
    ghost use Rattle.plane_loops.specs.Contours.{Contour};

    ghost Value = { Contour };

    ghost view = { λ l. record {
      vertices = l.vertices.items;
      order = l.order.items;
      ends = l.ends.items;
    } };
}
