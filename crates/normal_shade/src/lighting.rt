// The light on the top samples of a box, by one list.
ghost use Rattle.arrayvec.specs.ArrayVec.{array_vec_len};
ghost use Rattle.std.specs.Prelude.{◌≡◌, ◌<◌, ◌≤◌, ◌+◌, ◌==◌, ◌||◌, ◌&&◌, ◌*◌, ℕ, Bool, List, get_or, length, take};
ghost use Rattle.std.specs.List.{All};
ghost use Rattle.choice_trace.specs.Lanes.{point_in};
ghost use Rattle.fixed_ops.specs.Counts.{Counts, RisesBy, points_of};
ghost use Rattle.height_map.specs.Bound.{layered};
ghost use Rattle.height_map.specs.Columns.{Changes, IsLeafOf};
ghost use Rattle.normal_shade.specs.DualWork.{dual_points};
ghost use Rattle.normal_shade.specs.Lit.{lit_in};
ghost use Rattle.normal_shade.specs.Marks.{has_top_at, is_marked, is_within as lies_within, lit_along, shade_at};
ghost use Rattle.normal_shade.specs.TopSamples.{AllButWaiting, HasTop, IsSample, lit_samples, nth, point_at, stand_at};
ghost use Rattle.view_places.specs.Boxes.{Indices};

use crate::dual_lanes::gradient_lanes;
use crate::scratch::Scratch;
use crate::top_sample::TopSample;
use crate::tops::is_within;
use arrayvec::ArrayVec;
use box_chains::Places;
use choice_trace::Inputs;
use fixed_ops::{Fx, Tally, light};
use live_clauses::Steps;
use view_places::{IndexBox, Lattice};

/// Gives each column that has its top sample in a box the light there, by the derivatives of a list.
/// The evaluations of their dual numbers are counted.
pub fn light_tops(
    places: &Places,
    w: u32,
    b: IndexBox,
    list: &Steps<'_>,
    tops: &[u16],
    scratch: &mut Scratch,
    pixels: &mut [u8],
    tally: &mut Tally,
)
    requires leaf { IsLeafOf places.now w b (length tops.now) }
    requires pixels { length pixels.old ≡ length tops.now }
    requires room { length list.now ≤ scratch.old }
    ensures pixels { Changes (has_top_at w tops.now b)
        (λ p old. shade_at places.now.view list.now tops.now p) pixels.old pixels.new }
    ensures room { scratch.new ≡ scratch.old }
    ensures counted { RisesBy tally.old tally.new
        (points_of (lit_in (is_marked w tops.now) (layered places.now.view) b list.now)) }
{
    let mut waiting = ArrayVec::new();
    for j in b.y0..b.y1 {
        light_row(
            places,
            w,
            b,
            j,
            list,
            tops,
            &mut waiting,
            scratch,
            pixels,
            tally,
        );
    }
    light_samples(places, waiting.as_slice(), list, scratch, pixels, tally);
}

// Lights the top samples of a box in row j. Those that are too few to be lit together wait for more.
#[inline]
fn light_row(
    places: &Places,
    w: u32,
    b: IndexBox,
    j: u32,
    list: &Steps<'_>,
    tops: &[u16],
    waiting: &mut ArrayVec<TopSample, 8>,
    scratch: &mut Scratch,
    pixels: &mut [u8],
    tally: &mut Tally,
)
    requires leaf { IsLeafOf places.now w b (length tops.now) }
    requires low { b.y0 ≤ j }
    requires row { j < b.y1 }
    requires pixels { length pixels.old ≡ length tops.now }
    requires few { array_vec_len waiting.old < 8 }
    requires samples { All (IsSample places.now.view (length pixels.old)) waiting.old.items }
    requires room { length list.now ≤ scratch.old }
    ensures lit { (columns : ℕ → Bool) (points : ℕ) (old : List ℕ) (before : Counts)
        → AllButWaiting places.now.view list.now tops.now columns points waiting.old.items
        old pixels.old before tally.old
        → AllButWaiting places.now.view list.now tops.now
        (λ p. columns p || has_top_at w tops.now (record b { y0 = j; y1 = j + 1 }) p)
        (points + lit_along places.now.view list.now tops.now b j b.x0 b.x1) waiting.new.items
        old pixels.new before tally.new }
    ensures few { array_vec_len waiting.new < 8 }
    ensures samples { All (IsSample places.now.view (length pixels.new)) waiting.new.items }
    ensures room { scratch.new ≡ scratch.old }
{
    for i in b.x0..b.x1 {
        light_column(
            places, w, b, i, j, list, tops, waiting, scratch, pixels, tally,
        );
    }
}

// Lights the top sample of column i of row j, soon, where it lies in a box.
#[inline]
fn light_column(
    places: &Places,
    w: u32,
    b: IndexBox,
    i: u32,
    j: u32,
    list: &Steps<'_>,
    tops: &[u16],
    waiting: &mut ArrayVec<TopSample, 8>,
    scratch: &mut Scratch,
    pixels: &mut [u8],
    tally: &mut Tally,
)
    requires leaf { IsLeafOf places.now w b (length tops.now) }
    requires left { b.x0 ≤ i }
    requires column { i < b.x1 }
    requires row { j < b.y1 }
    requires pixels { length pixels.old ≡ length tops.now }
    requires few { array_vec_len waiting.old < 8 }
    requires samples { All (IsSample places.now.view (length pixels.old)) waiting.old.items }
    requires room { length list.now ≤ scratch.old }
    ensures lit { (columns : ℕ → Bool) (points : ℕ) (old : List ℕ) (before : Counts)
        → AllButWaiting places.now.view list.now tops.now columns points waiting.old.items
        old pixels.old before tally.old
        → AllButWaiting places.now.view list.now tops.now
        (λ p. columns p || (p == j * w + i && lies_within b (get_or tops.now p 0)))
        (points + lit_along places.now.view list.now tops.now b j i (i + 1)) waiting.new.items
        old pixels.new before tally.new }
    ensures few { array_vec_len waiting.new < 8 }
    ensures samples { All (IsSample places.now.view (length pixels.new)) waiting.new.items }
    ensures room { scratch.new ≡ scratch.old }
{
    let place = j as usize * w as usize + i as usize;
    let top = tops[place];
    if !is_within(b, top) {
        return;
    }
    let k = u32::from(top) - 1;
    let sample = TopSample { i, j, k, place };
    light_soon(places, sample, list, waiting, scratch, pixels, tally);
}

// Lights a top sample with those that wait, as soon as there are eight.
#[inline]
fn light_soon(
    places: &Places,
    sample: TopSample,
    list: &Steps<'_>,
    waiting: &mut ArrayVec<TopSample, 8>,
    scratch: &mut Scratch,
    pixels: &mut [u8],
    tally: &mut Tally,
)
    requires lattice { places.now.lattice ≡ Lattice.Height }
    requires sample { IsSample places.now.view (length pixels.old) sample }
    requires few { array_vec_len waiting.old < 8 }
    requires samples { All (IsSample places.now.view (length pixels.old)) waiting.old.items }
    requires room { length list.now ≤ scratch.old }
    ensures lit { (tops : List ℕ) (columns : ℕ → Bool) (points : ℕ) (old : List ℕ) (before : Counts)
        → HasTop tops sample
        → AllButWaiting places.now.view list.now tops columns points waiting.old.items
        old pixels.old before tally.old
        → AllButWaiting places.now.view list.now tops (λ p. columns p || p == sample.place)
        (points + dual_points (point_at places.now.view sample) list.now) waiting.new.items
        old pixels.new before tally.new }
    ensures few { array_vec_len waiting.new < 8 }
    ensures samples { All (IsSample places.now.view (length pixels.new)) waiting.new.items }
    ensures room { scratch.new ≡ scratch.old }
{
    waiting.push(sample);
    light_full(places, list, waiting, scratch, pixels, tally);
}

// Lights the top samples that wait, where there are eight.
#[inline]
fn light_full(
    places: &Places,
    list: &Steps<'_>,
    waiting: &mut ArrayVec<TopSample, 8>,
    scratch: &mut Scratch,
    pixels: &mut [u8],
    tally: &mut Tally,
)
    requires lattice { places.now.lattice ≡ Lattice.Height }
    requires samples { All (IsSample places.now.view (length pixels.old)) waiting.old.items }
    requires room { length list.now ≤ scratch.old }
    ensures lit { (tops : List ℕ) (columns : ℕ → Bool) (points : ℕ) (old : List ℕ) (before : Counts)
        → AllButWaiting places.now.view list.now tops columns points waiting.old.items
        old pixels.old before tally.old
        → AllButWaiting places.now.view list.now tops columns points waiting.new.items
        old pixels.new before tally.new }
    ensures few { array_vec_len waiting.new < 8 }
    ensures samples { All (IsSample places.now.view (length pixels.new)) waiting.new.items }
    ensures room { scratch.new ≡ scratch.old }
{
    if waiting.len() < 8 {
        return;
    }
    light_together::<8>(places, waiting.as_slice(), list, scratch, pixels, tally);
    waiting.clear();
}

// Lights some top samples: eight side by side, four, two, or one at a time.
fn light_samples(
    places: &Places,
    samples: &[TopSample],
    list: &Steps<'_>,
    scratch: &mut Scratch,
    pixels: &mut [u8],
    tally: &mut Tally,
)
    requires lattice { places.now.lattice ≡ Lattice.Height }
    requires samples { All (IsSample places.now.view (length pixels.old)) samples.now }
    requires room { length list.now ≤ scratch.old }
    ensures pixels { (tops : List ℕ) → All (HasTop tops) samples.now
        → Changes (stand_at samples.now) (λ p old. shade_at places.now.view list.now tops p)
        pixels.old pixels.new }
    ensures room { scratch.new ≡ scratch.old }
    ensures counted { RisesBy tally.old tally.new
        (points_of (lit_samples places.now.view list.now samples.now)) }
{
    let mut at = 0;
    while at < samples.len() {
        at += light_some(places, &samples[at..], list, scratch, pixels, tally);
    }
}

// Lights the first of some top samples. Gives how many.
#[inline]
fn light_some(
    places: &Places,
    samples: &[TopSample],
    list: &Steps<'_>,
    scratch: &mut Scratch,
    pixels: &mut [u8],
    tally: &mut Tally,
) -> usize
    requires lattice { places.now.lattice ≡ Lattice.Height }
    requires some { 0 < length samples.now }
    requires samples { All (IsSample places.now.view (length pixels.old)) samples.now }
    requires room { length list.now ≤ scratch.old }
    ensures some { 0 < result }
    ensures few { result ≤ length samples.now }
    ensures pixels { (tops : List ℕ) → All (HasTop tops) (take result samples.now)
        → Changes (stand_at (take result samples.now))
        (λ p old. shade_at places.now.view list.now tops p) pixels.old pixels.new }
    ensures room { scratch.new ≡ scratch.old }
    ensures counted { RisesBy tally.old tally.new
        (points_of (lit_samples places.now.view list.now (take result samples.now))) }
{
    if samples.len() >= 8 {
        light_together::<8>(places, &samples[..8], list, scratch, pixels, tally);
        8
    } else if samples.len() >= 4 {
        light_together::<4>(places, &samples[..4], list, scratch, pixels, tally);
        4
    } else if samples.len() >= 2 {
        light_together::<2>(places, &samples[..2], list, scratch, pixels, tally);
        2
    } else {
        light_together::<1>(places, &samples[..1], list, scratch, pixels, tally);
        1
    }
}

// Lights L top samples side by side.
fn light_together<const L: usize>(
    places: &Places,
    samples: &[TopSample],
    list: &Steps<'_>,
    scratch: &mut Scratch,
    pixels: &mut [u8],
    tally: &mut Tally,
)
    requires lanes { L ≤ 8 }
    requires many { length samples.now ≡ L }
    requires lattice { places.now.lattice ≡ Lattice.Height }
    requires samples { All (IsSample places.now.view (length pixels.old)) samples.now }
    requires room { length list.now ≤ scratch.old }
    ensures pixels { (tops : List ℕ) → All (HasTop tops) samples.now
        → Changes (stand_at samples.now) (λ p old. shade_at places.now.view list.now tops p)
        pixels.old pixels.new }
    ensures room { scratch.new ≡ scratch.old }
    ensures counted { RisesBy tally.old tally.new
        (points_of (lit_samples places.now.view list.now samples.now)) }
{
    let inputs = gather::<L>(places, samples);
    let duals = gradient_lanes::<L>(list, &inputs, scratch, tally);
    for lane in 0..L {
        let dual = duals[lane];
        pixels[samples[lane].place] = light(dual.dx, dual.dy, dual.dz);
    }
}

// The points of L top samples, each in its lane.
#[inline]
fn gather<const L: usize>(places: &Places, samples: &[TopSample]) -> Inputs<[Fx; 8]>
    requires lanes { L ≤ 8 }
    requires many { length samples.now ≡ L }
    requires lattice { places.now.lattice ≡ Lattice.Height }
    requires columns { (n : ℕ) → n < L → (nth samples.now n).i < places.now.view.w }
    requires rows { (n : ℕ) → n < L → (nth samples.now n).j < places.now.view.h }
    requires layers { (n : ℕ) → n < L → (nth samples.now n).k < places.now.view.d }
    ensures { (lane : ℕ) → lane < L → point_in lane result
        ≡ point_at places.now.view (nth samples.now lane) }
{
    let zeros = [Fx::from_raw(0); 8];
    let (mut x, mut y, mut z) = (zeros, zeros, zeros);
    for lane in 0..L {
        let sample = samples[lane];
        x[lane] = places.x(sample.i);
        y[lane] = places.y(sample.j);
        z[lane] = places.z(sample.k);
    }
    Inputs { x, y, z }
}
