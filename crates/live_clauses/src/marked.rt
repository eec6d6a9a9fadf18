// The next step that is marked.
ghost use Rattle.std.specs.Prelude.{◌≡◌, ◌+◌, ◌<◌, ◌≤◌, ◌==◌, true, length, if◌then◌else◌};
ghost use Rattle.std.specs.Int.{trailing_zeros, w64};
ghost use Rattle.live_clauses.specs.Marks.{AreIdle, IsNextMarked, is_marked};

use crate::choice_row::is_set;
use std::simd::prelude::*;

// How many marks are looked at together.
const LOOK: usize = 16;

// The first place from one on that is marked in a lane, or the end where none before it is.
#[inline(always)]
pub(crate) fn next_marked(marks: &[u8], lane: usize, from: usize, end: usize) -> usize
    requires lane { lane < 8 }
    requires from { from ≤ end }
    requires within { end ≤ length marks.now }
    ensures { IsNextMarked lane marks.now from end result }
{
    let mut at = from;
    while at + LOOK <= end {
        let idle = idle_marks(marks, lane, at);
        at += idle;
        if idle < LOOK {
            return at;
        }
    }
    next_of_few(marks, lane, at, end)
}

// How many of the marks that are looked at together come before the first in a lane.
#[inline(always)]
fn idle_marks(marks: &[u8], lane: usize, at: usize) -> usize
    requires lane { lane < 8 }
    requires within { at + LOOK ≤ length marks.now }
    ensures few { result ≤ LOOK }
    ensures idle { AreIdle lane marks.now at (at + result) }
    ensures there { result < LOOK → is_marked lane marks.now (at + result) ≡ true }
{
    let in_lane = u8x16::from_slice(&marks[at..]) & u8x16::splat(1 << lane);
    lowest_set(in_lane.simd_ne(u8x16::splat(0)).to_bitmask())
}

// The place of the lowest bit that is set, or how many are looked at where none is.
#[inline(always)]
fn lowest_set(bits: u64) -> usize
    ensures { result ≡ (if bits == 0 then LOOK else trailing_zeros w64 bits) }
{
    if bits == 0 {
        LOOK
    } else {
        bits.trailing_zeros() as usize
    }
}

// The first of so few marks that they are looked at one by one.
#[inline]
fn next_of_few(marks: &[u8], lane: usize, from: usize, end: usize) -> usize
    requires lane { lane < 8 }
    requires from { from ≤ end }
    requires within { end ≤ length marks.now }
    ensures { IsNextMarked lane marks.now from end result }
{
    let mut at = from;
    while at < end && !is_set(marks[at], lane) {
        at += 1;
    }
    at
}
