// The arcs that faces leave opposite a vertex.
ghost use Rattle.std.specs.Prelude.{◌≡◌, ◌<◌, ◌^◌, [], ◌∷◌, true};
ghost use Rattle.ply_check.specs.Arcs.{arcs_of, has};
ghost use Rattle.ply_check.specs.Corners.{triple_of};

// What a face leaves opposite one of its vertices: the edge between the other two.
#[derive(Clone, Copy)]
pub(crate) struct Arc {
    // The vertex that comes next in the face, and the last one.
    pub(crate) next: u32,
    pub(crate) last: u32,
    // The place, among the edges of all faces, of that from the vertex to the next.
    pub(crate) place: u64,
}

impl Arc {
    // That of a face by its number, at a vertex that it has.
    #[inline]
    pub(crate) fn at(number: u32, face: [u32; 3], vertex: u32) -> Arc
        requires { has vertex (triple_of face) ≡ true }
        ensures { arcs_of vertex number (triple_of face) ≡ result ∷ [] }
    {
        let [a, b, c] = face;
        let first = 3 * u64::from(number);
        let (next, last, place) = if a == vertex {
            (b, c, first)
        } else if b == vertex {
            (c, a, first + 1)
        } else {
            (a, b, first + 2)
        };
        Arc { next, last, place }
    }
}
