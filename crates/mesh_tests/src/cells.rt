// Keys and triangles worked out by hand.
use kuhn_cells::{EdgeKey, Triple, around, triangles};

fn key(x: u16, y: u16, z: u16, dir: u8) -> EdgeKey {
    EdgeKey { x, y, z, dir }
}

fn triple(a: EdgeKey, b: EdgeKey, c: EdgeKey) -> Triple {
    Triple { a, b, c }
}

#[test]
fn keys_are_ordered_by_z_first(rt: HostRuntime) {
    for (lesser, greater) in [
        (key(9, 9, 0, 7), key(0, 0, 1, 1)),
        (key(9, 0, 1, 7), key(0, 1, 1, 1)),
        (key(0, 1, 1, 7), key(1, 1, 1, 1)),
        (key(1, 1, 1, 1), key(1, 1, 1, 2)),
    ] {
        assert!(rt; lesser < greater);
        assert!(rt; greater > lesser);
    }
}

#[test]
fn lone_corner_has_a_triangle(rt: HostRuntime) {
    let first_inside = triangles(5, 6, 7, 0, 0b0000_0001);
    assert_eq!(rt;
        first_inside.as_slice(),
        [triple(key(5, 6, 7, 1), key(5, 6, 7, 3), key(5, 6, 7, 7))].as_slice()
    );
    let last_outside = triangles(5, 6, 7, 0, 0b0111_1111);
    assert_eq!(rt;
        last_outside.as_slice(),
        [triple(key(5, 6, 7, 7), key(6, 6, 7, 6), key(6, 7, 7, 4))].as_slice()
    );
}

#[test]
fn two_corners_have_two_triangles(rt: HostRuntime) {
    let middle_inside = triangles(5, 6, 7, 1, 0b0010_0010);
    assert_eq!(rt;
        middle_inside.as_slice(),
        [
            triple(key(6, 6, 7, 6), key(5, 6, 7, 1), key(5, 6, 7, 5)),
            triple(key(6, 6, 7, 6), key(5, 6, 7, 5), key(6, 6, 8, 2)),
        ]
        .as_slice()
    );
}

#[test]
fn corners_that_agree_have_none(rt: HostRuntime) {
    for tetra in 0..6 {
        assert!(rt; triangles(65534, 65534, 65534, tetra, 0).is_empty());
        assert!(rt; triangles(65534, 65534, 65534, tetra, 255).is_empty());
    }
}

#[test]
fn tetrahedra_lie_round_an_edge(rt: HostRuntime) {
    assert_eq!(rt;
        around(3).as_slice(),
        [(0, 0), (4, 4), (4, 5), (0, 2)].as_slice()
    );
    assert_eq!(rt;
        around(7).as_slice(),
        [(0, 0), (0, 2), (0, 3), (0, 5), (0, 4), (0, 1)].as_slice()
    );
}
