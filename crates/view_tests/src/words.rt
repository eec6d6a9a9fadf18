// Words with jobs worked out by hand.
use std::alloc::Global;
use std::test::Fail;
use view_places::View;
use view_settings::{Forge, Job, Settings, Verb, WordFault, WordReason, read_words};

const ONE: i64 = 1 << 32;

// The answer on words that are separated by spaces.
fn read(alloc: Global, text: &str) -> Result<Result<Job, WordFault>, Fail> {
    let mut words = Vec::new(alloc);
    for word in text.split_whitespace() {
        words.push(String::from_str(alloc, word)?)?;
    }
    Ok(read_words(&words))
}

#[test]
fn words_without_settings_give_the_defaults(rt: HostRuntime) -> Result<(), Fail> {
    let view = View {
        x0: -ONE,
        x1: ONE,
        y0: -ONE,
        y1: ONE,
        z0: -ONE,
        z1: ONE,
        z: 0,
        w: 512,
        h: 512,
        d: 255,
        nx: 64,
        ny: 64,
        nz: 64,
    };
    let forge = Forge {
        seed: 0,
        solids: 16,
        view,
    };
    for (text, job) in [
        ("render", Job::Render(view)),
        ("height", Job::Height(view)),
        ("mesh", Job::Mesh(view)),
        ("count", Job::Count(view)),
        ("text", Job::Text),
        ("replay", Job::Replay),
        ("forge", Job::Forge(forge)),
        ("shade", Job::Shade(view)),
        ("contour", Job::Contour(view)),
        ("solid", Job::Solid),
        ("check", Job::Check),
    ] {
        assert_eq!(rt; read(rt.alloc(), text)?, Ok(job), "{text}");
    }
    Ok(())
}

#[test]
fn settings_are_taken_in_any_order(rt: HostRuntime) -> Result<(), Fail> {
    let text =
        "forge seed=18446744073709551615 h=7 y1=1e3 x0=-.5 w=00000000000000004096 solids=5000 z=+2";
    let view = View {
        x0: -2_147_483_648,
        x1: ONE,
        y0: -ONE,
        y1: 4_294_967_296_000,
        z0: -ONE,
        z1: ONE,
        z: 8_589_934_592,
        w: 4096,
        h: 7,
        d: 255,
        nx: 64,
        ny: 64,
        nz: 64,
    };
    let forge = Forge {
        seed: u64::MAX,
        solids: 5000,
        view,
    };
    assert_eq!(rt; read(rt.alloc(), text)?, Ok(Job::Forge(forge)));
    Ok(())
}

// Whole runs show most words that are refused, in crates/acceptance. These are the others.
#[test]
fn words_are_refused_by_the_lowest_reason_of_the_first_bad_word(
    rt: HostRuntime,
) -> Result<(), Fail> {
    for (text, at, reason) in [
        ("Render", 1, WordReason::UnknownVerb),
        ("draw w", 1, WordReason::UnknownVerb),
        ("render n=a", 2, WordReason::UnknownSetting),
        ("render w=3 h=a w=3", 3, WordReason::BadValue),
        ("render x0=1e", 2, WordReason::BadValue),
        ("count h=4097", 2, WordReason::OutOfRange),
        ("contour z0=1", 2, WordReason::UnknownSetting),
        ("contour w=3", 2, WordReason::UnknownSetting),
        (
            "contour n=256 y0=0 y1=0.003906249",
            0,
            WordReason::CellTooSmall,
        ),
        ("mesh n=2 nx=3 nx=3", 4, WordReason::Twice),
        ("forge solids=0", 2, WordReason::OutOfRange),
        ("render x0=1 x1=-1 w=a", 4, WordReason::BadValue),
        ("mesh z1=-2", 0, WordReason::EmptySpan),
    ] {
        assert_eq!(rt;
            read(rt.alloc(), text)?,
            Err(WordFault { at, reason }),
            "{text}"
        );
    }
    Ok(())
}

// The view of a mesh of so many cells along x, y and z, all else by default.
fn mesh_of(nx: u32, ny: u32, nz: u32) -> Option<View> {
    if nx == 0 || ny == 0 || nz == 0 || nx > 512 || ny > 512 || nz > 512 {
        return None;
    }
    Some(View {
        x0: -ONE,
        x1: ONE,
        y0: -ONE,
        y1: ONE,
        z0: -ONE,
        z1: ONE,
        z: 0,
        w: 512,
        h: 512,
        d: 255,
        nx,
        ny,
        nz,
    })
}

#[test]
fn axes_without_a_count_have_that_of_all(rt: HostRuntime) -> Result<(), Fail> {
    for (text, (nx, ny, nz)) in [
        ("mesh n=5", (5, 5, 5)),
        ("mesh nx=3", (3, 64, 64)),
        ("mesh ny=3", (64, 3, 64)),
        ("mesh nz=3", (64, 64, 3)),
        ("mesh nx=3 n=5", (3, 5, 5)),
        ("mesh n=5 nx=3", (3, 5, 5)),
        ("mesh n=5 ny=3", (5, 3, 5)),
        ("mesh ny=3 n=5", (5, 3, 5)),
        ("mesh n=5 nz=3", (5, 5, 3)),
        ("mesh nz=3 n=5", (5, 5, 3)),
        ("mesh nz=4 nx=2 ny=3", (2, 3, 4)),
        ("mesh nz=4 n=256 nx=2 ny=3", (2, 3, 4)),
        ("mesh ny=512 nx=64 nz=512", (64, 512, 512)),
        ("mesh n=256", (256, 256, 256)),
    ] {
        let view = mesh_of(nx, ny, nz).ok_or("a view")?;
        assert_eq!(rt; read(rt.alloc(), text)?, Ok(Job::Mesh(view)), "{text}");
    }
    Ok(())
}

// The view of a mesh whose axes begin at 0 and have these lengths and these numbers of cells.
fn mesh_view(lengths: [i64; 3], cells: [u32; 3]) -> Option<View> {
    let [x1, y1, z1] = lengths;
    let [nx, ny, nz] = cells;
    if x1 < 0 || y1 < 0 || z1 < 0 || x1 > ONE || y1 > ONE || z1 > ONE {
        return None;
    }
    if nx == 0 || ny == 0 || nz == 0 || nx > 512 || ny > 512 || nz > 512 {
        return None;
    }
    Some(View {
        x0: 0,
        x1,
        y0: 0,
        y1,
        z0: 0,
        z1,
        z: 0,
        w: 512,
        h: 512,
        d: 255,
        nx,
        ny,
        nz,
    })
}

#[test]
fn words_of_a_mesh_are_taken_where_its_view_fits(rt: HostRuntime) -> Result<(), Fail> {
    // As far as 512 cells of 65536 raw units each.
    let room = 512 << 16;
    let small = WordReason::CellTooSmall;
    let many = WordReason::TooManyCells;
    for (text, lengths, cells, refused) in [
        ("nx=512 ny=512 nz=64", [ONE, ONE, ONE], [512, 512, 64], None),
        ("n=256", [ONE, ONE, ONE], [256, 256, 256], None),
        (
            "nx=145 ny=317 nz=365",
            [ONE, ONE, ONE],
            [145, 317, 365],
            Some(many),
        ),
        ("nx=512 x1=0.0078125", [room, ONE, ONE], [512, 64, 64], None),
        ("ny=512 y1=0.0078125", [ONE, room, ONE], [64, 512, 64], None),
        ("nz=512 z1=0.0078125", [ONE, ONE, room], [64, 64, 512], None),
        (
            "nx=512 x1=0.00781249976716935634613037109375",
            [room - 1, ONE, ONE],
            [512, 64, 64],
            Some(small),
        ),
        (
            "ny=512 y1=0.00781249976716935634613037109375",
            [ONE, room - 1, ONE],
            [64, 512, 64],
            Some(small),
        ),
        (
            "nz=512 z1=0.00781249976716935634613037109375",
            [ONE, ONE, room - 1],
            [64, 64, 512],
            Some(small),
        ),
        (
            "nx=512 ny=512 nz=512 z1=0.00781249976716935634613037109375",
            [ONE, ONE, room - 1],
            [512, 512, 512],
            Some(small),
        ),
    ] {
        let words = format!(in rt.alloc(); "mesh x0=0 y0=0 z0=0 {text}")?;
        let view = mesh_view(lengths, cells).ok_or("a view")?;
        let expected = match refused {
            None => Ok(Job::Mesh(view)),
            Some(reason) => Err(WordFault { at: 0, reason }),
        };
        assert_eq!(rt; read(rt.alloc(), &words)?, expected, "{text}");
        assert_eq!(rt; view.fits_mesh(), refused.is_none(), "{text}");
    }
    Ok(())
}

#[test]
fn settings_go_on_after_a_refusal(rt: HostRuntime) {
    let mut settings = Settings::start(Verb::Height);
    assert_eq!(rt; settings.take(b"w=7"), Ok(()));
    assert_eq!(rt; settings.take(b"d=0"), Err(WordReason::OutOfRange));
    assert_eq!(rt; settings.take(b"w=8"), Err(WordReason::Twice));
    assert_eq!(rt; settings.take(b"d=9"), Ok(()));
    assert!(rt;
        matches!(
            settings.finish(),
            Ok(Job::Height(View {
                w: 7,
                h: 512,
                d: 9,
                ..
            }))
        )
    );
}
