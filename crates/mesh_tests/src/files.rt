ghost use Rattle.std.specs.Prelude.{◌^◌, ◌<◌, length};

use ply_check::{PlyFault, PlyReason, read_ply};
use std::alloc::Global;
use std::process::Abort;
use std::test::Fail;

#[test]
fn reads_files(rt: HostRuntime) -> Result<(), Fail> {
    let cases: [(&[u8], u32, usize); 5] = [
        (
            b"ply\nformat ascii 1.0\nelement vertex 0\nproperty int x\nelement face 0\n\
            property list uchar int vertex_index\nend_header",
            0,
            0,
        ),
        (
            b"\n ply\r\n\ncomment\nobj_info a b\r\nformat\tascii 1.0\nelement vertex 3\n\
            property float x\nproperty float64 y\n\nproperty uchar red\ncomment end_header\n\
            property int8 a\nproperty uint16 b\nproperty short c\nelement face 1\n\
            property list uint8 int32 vertex_indices\nobj_info\nend_header\r\n\
            # not read a b c\n\n1 2 3 4 5 6\r\nz z z z z z\n \n3 2 0000000001 0",
            3,
            1,
        ),
        (
            b"ply\nformat ascii 1.0\nelement vertex 3\nproperty int x\nproperty int y\n\
            property int z\nelement face 0\nproperty list char ushort vertex_index\nend_header\n\
            comment a b\n1 2 3\n1 2 3\n\n",
            3,
            0,
        ),
        (
            b"ply\nformat ascii 1.0\nelement vertex 1\nproperty uint x\nelement face 2\n\
            property list double float32 vertex_index\nend_header\n3\n3 0 0 0\n3 0 0 0",
            1,
            2,
        ),
        (
            b"ply\nformat ascii 1.0\nelement vertex 4\nproperty int x\nelement face 4\n\
            property list uchar int vertex_indices\nend_header\n0\n0\n0\n0\n3 0 2 1\n3 0 1 3\n\
            3 0 3 2\n3 1 2 3\n",
            4,
            4,
        ),
    ];
    for (text, count, faces) in cases {
        let file = read_ply(rt.alloc(), text)?;
        assert_eq!(rt; file.count, count);
        assert_eq!(rt; file.faces.len(), faces);
        if let Some(last) = file.faces.last() {
            assert!(rt; *last == [2, 1, 0] || *last == [0, 0, 0] || *last == [1, 2, 3]);
        }
    }
    Ok(())
}

// Reads a file that is refused, and compares the line and the reason.
fn expect_refusal(rt: &impl Abort, alloc: Global, file: &[u8], fault: PlyFault)
    requires { length file.now < 2 ^ 32 }
{
    match read_ply(alloc, file) {
        Ok(_) => assert!(rt; false, "{file:?} is read"),
        Err(found) => assert_eq!(rt; found, fault),
    }
}

#[test]
fn refuses_headers(rt: HostRuntime) {
    let cases: [(&[u8], u32, PlyReason); 19] = [
        (b"", 0, PlyReason::NotPly),
        (b"\n \t\r\n", 0, PlyReason::NotPly),
        (b"comment x\nply", 1, PlyReason::NotPly),
        (b"\nply x", 2, PlyReason::NotPly),
        (b"stl", 1, PlyReason::NotPly),
        (b"ply\n\n# x\nformat ascii 1.0", 3, PlyReason::BadHeader),
        (b"ply\nformat ascii 1", 2, PlyReason::BadHeader),
        (
            b"ply\nformat binary_little_endian 1.0",
            2,
            PlyReason::BadHeader,
        ),
        (
            b"ply\nformat ascii 1.0\nformat ascii 1.0",
            3,
            PlyReason::BadHeader,
        ),
        (
            b"ply\nformat ascii 1.0\nelement vertex 2147483648",
            3,
            PlyReason::BadHeader,
        ),
        (
            b"ply\nformat ascii 1.0\nelement vertex 3\ncomment\nelement face 1",
            5,
            PlyReason::BadHeader,
        ),
        (
            b"ply\nformat ascii 1.0\nelement vertex 3\nproperty list uchar int vertex_index",
            4,
            PlyReason::BadHeader,
        ),
        (
            b"ply\nformat ascii 1.0\nelement vertex 3\nproperty int x\nelement edge 0",
            5,
            PlyReason::BadHeader,
        ),
        (
            b"ply\nformat ascii 1.0\nelement vertex 3\nproperty int x\nelement face 1\n\
            property list uchar int vertex_indexs",
            6,
            PlyReason::BadHeader,
        ),
        (
            b"ply\nformat ascii 1.0\nelement vertex 3\nproperty int x\nelement face 1\n\
            property list uchar int vertex_index\nproperty list uchar int vertex_index",
            7,
            PlyReason::BadHeader,
        ),
        (
            b"ply\nformat ascii 1.0\nelement vertex 3\nproperty int x\nelement face 1\n\
            property list uchar int vertex_index\nproperty int flags",
            7,
            PlyReason::BadHeader,
        ),
        (
            b"ply\nformat ascii 1.0\nelement vertex 2147483647\nproperty int x\n",
            0,
            PlyReason::TooShort,
        ),
        (
            b"ply\nformat ascii 1.0\nelement vertex 2147483647\nproperty int x\nelement face 0\n\
            property list uchar int vertex_index\nend_header\n0\n",
            0,
            PlyReason::TooShort,
        ),
        (
            b"ply\nformat ascii 1.0\nelement vertex 1\nproperty int x\nelement face 2147483647\n\
            property list uchar int vertex_index\nend_header\n0\n3 0 0 0\n",
            0,
            PlyReason::TooShort,
        ),
    ];
    for (file, line, reason) in cases {
        expect_refusal(&rt, rt.alloc(), file, PlyFault { line, reason });
    }
}

#[test]
fn refuses_lines_of_vertices_and_faces(rt: HostRuntime) -> Result<(), Fail> {
    let header = b"ply\nformat ascii 1.0\nelement vertex 4\nproperty int x\nproperty int y\n\
        element face 1\nproperty list uchar int vertex_index\nend_header\n";
    let cases: [(&[u8], u32, PlyReason); 15] = [
        (b"0 0\n0\n", 10, PlyReason::BadVertex),
        (b"0 0\ncomment a b\n", 10, PlyReason::BadVertex),
        (b"0 0\n0 0\n0 0\n0 0\n3 1 2 4\n4", 13, PlyReason::BadIndex),
        (
            b"0 0\n0 0\n0 0\n0 0\n3 1 2 4294967296",
            13,
            PlyReason::BadIndex,
        ),
        (
            b"0 0\n0 0\n0 0\n0 0\n3 1 2 9999999999",
            13,
            PlyReason::BadIndex,
        ),
        (
            b"0 0\n0 0\n0 0\n0 0\n3 1 2 00000000003",
            13,
            PlyReason::BadFace,
        ),
        (b"0 0\n0 0\n0 0\n0 0\n3 1 2 +3", 13, PlyReason::BadFace),
        (b"0 0\n0 0\n0 0\n0 0\n3 4 2 -1", 13, PlyReason::BadFace),
        (b"0 0\n0 0\n0 0\n0 0\n4 0 2 1 3", 13, PlyReason::BadFace),
        (b"0 0\n0 0\n0 0\n0 0\n3 0 2 1 9", 13, PlyReason::BadFace),
        (b"0 0\n0 0\n0 0\n0 0\n03 0 2 1", 13, PlyReason::BadFace),
        (b"0 0\n0 0\n0 0\n0 0\ncomment", 13, PlyReason::BadFace),
        (b"0 0\n0 0\n0 0\n\n\n0 0\n", 0, PlyReason::TooShort),
        (b"0 0\n0 0\n0 0\n0 0\n3 0 2 1\n\n3", 15, PlyReason::TooLong),
        (
            b"0 0\n0 0\n0 0\n0 0\n3 0 2 1\n# x\n",
            14,
            PlyReason::TooLong,
        ),
    ];
    for (lines, line, reason) in cases {
        let mut file = header.to_vec(rt.alloc())?;
        file.extend_from_slice(lines)?;
        assert!(rt; file.len() < 1000);
        expect_refusal(&rt, rt.alloc(), &file, PlyFault { line, reason });
    }
    Ok(())
}
