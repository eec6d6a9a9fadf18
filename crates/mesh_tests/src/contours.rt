// Contours worked out by hand.
use fixed_ops::Fx;
use plane_loops::{PlaneVertex, link_loops};
use std::test::Fail;

// The middle point of three along each axis lies one raw unit below 0, and all others at 0.
#[test]
fn round_a_point(rt: HostRuntime) -> Result<(), Fail> {
    let out = Fx::from_raw(0);
    let inside = Fx::from_raw(-1);
    let values = [out, out, out, out, inside, out, out, out, out];
    let signs = [8, 4, 2, 1];
    let found = link_loops(rt.alloc(), 2, &values, &signs)?;
    let vertices = [
        PlaneVertex {
            x: 0,
            y: 0,
            dir: 3,
            t: 1,
        },
        PlaneVertex {
            x: 1,
            y: 0,
            dir: 2,
            t: 1,
        },
        PlaneVertex {
            x: 0,
            y: 1,
            dir: 1,
            t: 1,
        },
        PlaneVertex {
            x: 1,
            y: 1,
            dir: 1,
            t: 65535,
        },
        PlaneVertex {
            x: 1,
            y: 1,
            dir: 2,
            t: 65535,
        },
        PlaneVertex {
            x: 1,
            y: 1,
            dir: 3,
            t: 65535,
        },
    ];
    assert_eq!(rt; found.vertices.as_slice(), vertices.as_slice());
    assert_eq!(rt; found.order.as_slice(), [0, 1, 3, 5, 4, 2].as_slice());
    assert_eq!(rt; found.ends.as_slice(), [6].as_slice());
    Ok(())
}
