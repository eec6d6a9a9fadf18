// Images with their bytes written out by hand.
use arrayvec::ArrayVec;
use raster_pgm::{PixelGrid, pgm_head, pgm_text, raster_length, samples_text};
use std::test::Fail;

#[test]
fn image_has_width_before_height(rt: HostRuntime) -> Result<(), Fail> {
    let pixels = [0, 0, 255, 255, 0, 255].to_vec(rt.alloc())?;
    let image = PixelGrid { w: 3, h: 2, pixels };
    assert_eq!(rt; image.pixels.len(), 6);
    let text = pgm_text(rt.alloc(), &image)?;
    assert_eq!(rt;
        text.as_slice(),
        [
            0x50, 0x35, 0x0a, 0x33, 0x20, 0x32, 0x0a, 0x32, 0x35, 0x35, 0x0a, 0, 0, 255, 255, 0,
            255
        ]
        .as_slice()
    );
    Ok(())
}

#[test]
fn heads_have_as_many_digits_as_their_counts(rt: HostRuntime) -> Result<(), Fail> {
    let cases: [(u32, u32, u32, &[u8]); 5] = [
        (1, 9, 255, b"P5\n1 9\n255\n"),
        (10, 99, 1, b"P5\n10 99\n1\n"),
        (100, 999, 10, b"P5\n100 999\n10\n"),
        (1000, 4096, 255, b"P5\n1000 4096\n255\n"),
        (4096, 4096, 1024, b"P5\n4096 4096\n1024\n"),
    ];
    for (w, h, most, bytes) in cases {
        let mut head = ArrayVec::new();
        pgm_head(w, h, most, &mut head);
        assert_eq!(rt; head.as_slice(), bytes);
    }
    Ok(())
}

#[test]
fn lengths_count_the_head_and_the_pixels(rt: HostRuntime) -> Result<(), Fail> {
    // Eleven bytes of the head of one pixel, and one more for each digit more.
    let cases = [
        (1, 1, 12),
        (9, 10, 102),
        (999, 1000, 999_016),
        (4096, 4096, 16_777_233),
    ];
    for (w, h, bytes) in cases {
        assert_eq!(rt; raster_length(w, h), bytes);
    }
    Ok(())
}

#[test]
fn samples_have_two_bytes_from_256_on(rt: HostRuntime) -> Result<(), Fail> {
    let cases: [(u32, [u16; 2], &[u8]); 3] = [
        (255, [0, 255], b"P5\n2 1\n255\n\x00\xff"),
        (256, [1, 256], b"P5\n2 1\n256\n\x00\x01\x01\x00"),
        (1024, [259, 1024], b"P5\n2 1\n1024\n\x01\x03\x04\x00"),
    ];
    for (d, samples, bytes) in cases {
        let text = samples_text(rt.alloc(), 2, 1, d, &samples)?;
        assert_eq!(rt; text.as_slice(), bytes);
    }
    Ok(())
}
