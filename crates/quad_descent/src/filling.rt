// Rows of pixels of one box.
ghost use Rattle.std.specs.Prelude.{◌≡◌, ◌+◌, ◌-◌, ◌*◌, ◌<◌, ◌≤◌, ℕ, true, length, if◌then◌else◌, IsTrue};
ghost use Rattle.view_places.specs.Spans.{IsInRoot};
ghost use Rattle.quad_descent.specs.Nodes.{bits_of, insides, rows_of};
ghost use Rattle.quad_descent.specs.Painting.{IsBand, Paints, among, byte_at, covers, digit_byte, meets};

use crate::Picture;
use crate::band::Band;
use std::simd::prelude::*;
use view_places::{IndexBox, Lattice};

impl Picture {
    // Paints the samples of a box, which are all inside or all outside.
    pub(crate) fn fill_box(&self, b: IndexBox, byte: u8, band: Band, pixels: &mut [u8])
        requires within { IsInRoot self.now.view Lattice.Raster b }
        requires band { IsBand self.now.view band (length pixels.old) }
        requires meets { IsTrue (meets band b) }
        requires byte { (p : ℕ) → p < length pixels.old → covers self.now.view.w band.row b p ≡ true
            → byte_at self.now.view self.now.list band.row p ≡ byte }
        ensures { Paints (covers self.now.view.w band.row b)
            (byte_at self.now.view self.now.list band.row) pixels.old pixels.new }
    {
        for j in b.y0.max(band.row)..b.y1.min(band.row + band.rows) {
            let start = (j - band.row) as usize * self.view.w as usize;
            fill(pixels, start + b.x0 as usize, start + b.x1 as usize, byte);
        }
    }

    // Paints the samples of a leaf, whose rows are these.
    pub(crate) fn paint_leaf(&self, rows: &[u8; 8], b: IndexBox, band: Band, pixels: &mut [u8])
        requires within { IsInRoot self.now.view Lattice.Raster b }
        requires band { IsBand self.now.view band (length pixels.old) }
        requires meets { IsTrue (meets band b) }
        requires low { b.y1 - b.y0 ≤ 8 }
        requires rows { rows.now ≡ rows_of self.now.view Lattice.Raster self.now.list b }
        ensures { Paints (covers self.now.view.w band.row b)
            (byte_at self.now.view self.now.list band.row) pixels.old pixels.new }
    {
        for j in b.y0.max(band.row)..b.y1.min(band.row + band.rows) {
            self.paint_row(rows[(j - b.y0) as usize], b, j, band, pixels);
        }
    }

    // Paints the samples of row j of a leaf, which are the digits of a number.
    #[inline]
    fn paint_row(&self, bits: u8, b: IndexBox, j: u32, band: Band, pixels: &mut [u8])
        requires within { IsInRoot self.now.view Lattice.Raster b }
        requires band { IsBand self.now.view band (length pixels.old) }
        requires above { band.row ≤ j }
        requires below { j < band.row + band.rows }
        requires bits { bits ≡ bits_of (insides self.now.view Lattice.Raster self.now.list b j) }
        ensures { Paints (among ((j - band.row) * self.now.view.w + b.x0)
            ((j - band.row) * self.now.view.w + b.x1))
            (byte_at self.now.view self.now.list band.row) pixels.old pixels.new }
    {
        // A row of eight samples is written at once.
        match b.x1 - b.x0 {
            8 => {
                let start = (j - band.row) as usize * self.view.w as usize;
                paint_eight(bits, start + b.x0 as usize, pixels);
            }
            width => self.paint_digits(bits, width, b, j, band, pixels),
        }
    }

    // The same of a row of so many samples.
    #[inline(always)]
    fn paint_digits(&self, bits: u8, width: u32, b: IndexBox, j: u32, band: Band, pixels: &mut [u8])
        requires within { IsInRoot self.now.view Lattice.Raster b }
        requires band { IsBand self.now.view band (length pixels.old) }
        requires above { band.row ≤ j }
        requires below { j < band.row + band.rows }
        requires width { width ≡ b.x1 - b.x0 }
        requires bits { bits ≡ bits_of (insides self.now.view Lattice.Raster self.now.list b j) }
        ensures { Paints (among ((j - band.row) * self.now.view.w + b.x0)
            ((j - band.row) * self.now.view.w + b.x1))
            (byte_at self.now.view self.now.list band.row) pixels.old pixels.new }
    {
        let start = (j - band.row) as usize * self.view.w as usize;
        let mut rest = bits;
        for n in 0..width {
            let i = (b.x1 - 1 - n) as usize;
            pixels[start + i] = pixel(rest % 2 == 1);
            rest /= 2;
        }
    }
}

// Sets the bytes from a place on up to another.
#[inline]
fn fill(pixels: &mut [u8], from: usize, to: usize, byte: u8)
    requires order { from ≤ to }
    requires within { to ≤ length pixels.old }
    ensures { Paints (among from to) (λ _. byte) pixels.old pixels.new }
{
    if to - from == 8 {
        fill_eight(pixels, from, byte);
    } else {
        for p in from..to {
            pixels[p] = byte;
        }
    }
}

// The same of eight bytes, which are set by one store.
#[inline(always)]
fn fill_eight(pixels: &mut [u8], from: usize, byte: u8)
    requires { from + 8 ≤ length pixels.old }
    ensures { Paints (among from (from + 8)) (λ _. byte) pixels.old pixels.new }
{
    for p in from..from + 8 {
        pixels[p] = byte;
    }
}

// Sets the eight bytes from a place on, each by a digit of a number, the highest first: 255 for 1 and 0
// for 0.
#[inline(always)]
fn paint_eight(bits: u8, from: usize, pixels: &mut [u8])
    requires { from + 8 ≤ length pixels.old }
    ensures { Paints (among from (from + 8)) (λ p. digit_byte bits (from + 7 - p))
        pixels.old pixels.new }
{
    let digits = u8x8::splat(bits) & u8x8::from_array([128, 64, 32, 16, 8, 4, 2, 1]);
    let bytes = digits.simd_ne(u8x8::splat(0));
    bytes
        .select(u8x8::splat(255), u8x8::splat(0))
        .copy_to_slice(&mut pixels[from..]);
}

// The byte of a pixel: 255 inside and 0 outside.
#[inline]
fn pixel(inside: bool) -> u8
    ensures { result ≡ (if inside then 255 else 0) }
{
    if inside { 255 } else { 0 }
}
