// What stands before the samples of a PGM image, made without memory.
// https://netpbm.sourceforge.net/doc/pgm.html
ghost use Rattle.std.specs.Prelude.{◌≡◌, ◌+◌, ◌*◌, ◌≤◌, [], ◌∷◌, ◌++◌, decimal, length};
ghost use Rattle.arrayvec.specs.ArrayVec.{array_vec_len};
ghost use Rattle.raster_pgm.specs.Pgm.{pgm_header_of};
ghost use Rattle.raster_pgm.specs.Samples.{samples_header_of};

use arrayvec::ArrayVec;
use itoa::Buffer;

/// Writes what stands before h rows of w samples, none of which is above `most`, into an empty text.
pub fn pgm_head(w: u32, h: u32, most: u32, text: &mut ArrayVec<u8, 24>)
    requires empty { text.old.items ≡ [] }
    requires columns { 1 ≤ w }
    requires narrow { w ≤ 4096 }
    requires rows { 1 ≤ h }
    requires low { h ≤ 4096 }
    requires some { 1 ≤ most }
    requires few { most ≤ 1024 }
    ensures head { text.new.items ≡ samples_header_of w h most }
    ensures image { most ≡ 255 → text.new.items ≡ pgm_header_of w h }
    ensures short { array_vec_len text.new ≤ 18 }
{
    push_counts(w, h, most, text);
}

/// How many bytes an image of h rows of w pixels has with its header.
pub fn raster_length(w: u32, h: u32) -> u64
    requires columns { 1 ≤ w }
    requires narrow { w ≤ 4096 }
    requires rows { 1 ≤ h }
    requires low { h ≤ 4096 }
    ensures { result ≡ length (pgm_header_of w h) + w * h }
{
    let mut head = ArrayVec::new();
    pgm_head(w, h, 255, &mut head);
    head.len() as u64 + u64::from(w) * u64::from(h)
}

// Adds the form and the three counts.
fn push_counts(w: u32, h: u32, most: u32, text: &mut ArrayVec<u8, 24>)
    requires empty { text.old.items ≡ [] }
    requires narrow { w ≤ 4096 }
    requires low { h ≤ 4096 }
    requires few { most ≤ 4096 }
    ensures head { text.new.items ≡ samples_header_of w h most }
    ensures short { array_vec_len text.new ≤ 18 }
{
    text.try_extend_from_slice(b"P5\n").unwrap();
    push_count(w, b' ', text);
    push_count(h, b'\n', text);
    push_count(most, b'\n', text);
}

// Adds a count in decimal, and the byte that ends it.
#[tactic(auto, using(crate::proofs::Heads::count_short))]
fn push_count(count: u32, end: u8, text: &mut ArrayVec<u8, 24>)
    requires few { count ≤ 4096 }
    requires room { array_vec_len text.old + 5 ≤ 24 }
    ensures digits { text.new.items ≡ text.old.items ++ (decimal count ++ end ∷ []) }
    ensures short { array_vec_len text.new ≤ array_vec_len text.old + 5 }
{
    let mut buffer = Buffer::new();
    text.try_extend_from_slice(buffer.format(count).as_bytes())
        .unwrap();
    text.push(end);
}
