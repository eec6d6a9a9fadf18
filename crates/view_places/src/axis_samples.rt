// The samples along an axis of a lattice.
ghost use Rattle.std.specs.Prelude.{◌≡◌, ◌<◌, ◌≤◌, ◌-ℤ◌, ◌≤ℤ◌, pos};
ghost use Rattle.fixed_ops.specs.Raw.{IsRaw};
ghost use Rattle.view_places.specs.Samples.{place_down, place_on, place_up, distance_of as way_of};
ghost use Rattle.view_places.specs.Window.{AreEnds};

use crate::Course;
use fixed_ops::Fx;

/// The samples along an axis of a lattice.
#[derive(Clone, Copy, Debug, PartialEq, Eq)]
pub struct AxisSamples {
    /// The raw place of the lower end of the axis.
    pub low: i64,
    /// The raw place of its upper end.
    pub high: i64,
    /// The steps from the first sample to the last.
    pub steps: u32,
    /// Which way the samples go.
    pub course: Course,
}

impl AxisSamples {
    /// The raw place of sample i.
    #[inline]
    pub fn place(&self, i: u32) -> i64
        requires ends { AreEnds self.now.low self.now.high }
        requires within { i ≤ self.now.steps }
        ensures place { result ≡ place_on self.now i }
        ensures raw { IsRaw result }
    {
        match self.course {
            Course::Rising => rising(self.low, self.high, self.steps, i),
            Course::Falling => falling(self.low, self.high, self.steps, i),
            Course::Level => self.low,
        }
    }

    /// The place of sample i.
    #[inline]
    pub fn sample(&self, i: u32) -> Fx
        requires ends { AreEnds self.now.low self.now.high }
        requires within { i ≤ self.now.steps }
        ensures { result ≡ place_on self.now i }
    {
        Fx::from_raw(self.place(i))
    }
}

// Sample i of the samples that lie from low on up to high, so many steps in all.
#[inline]
fn rising(low: i64, high: i64, steps: u32, i: u32) -> i64
    requires ends { AreEnds low high }
    requires within { i ≤ steps }
    ensures place { result ≡ place_up low high steps i }
    ensures raw { IsRaw result }
{
    low + way((high - low) as u64, steps, i) as i64
}

// Sample j of the samples that lie from high on down to low, so many steps in all.
#[inline]
fn falling(low: i64, high: i64, steps: u32, j: u32) -> i64
    requires ends { AreEnds low high }
    requires within { j ≤ steps }
    ensures place { result ≡ place_down low high steps j }
    ensures raw { IsRaw result }
{
    high - way((high - low) as u64, steps, j) as i64
}

// How far sample i lies from the first, rounded down, where the last of so many steps lies this
// far.
#[inline]
fn way(whole: u64, steps: u32, i: u32) -> u64
    requires { i ≤ steps }
    ensures way { pos result ≡ way_of (pos whole) steps i }
    ensures short { result ≤ whole }
{
    if steps == 0 {
        return 0;
    }
    match whole.checked_mul(u64::from(i)) {
        Some(product) => product / u64::from(steps),
        None => (u128::from(whole) * u128::from(i) / u128::from(steps)) as u64,
    }
}
