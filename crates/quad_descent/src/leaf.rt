// Leaves, whose samples are evaluated side by side.
ghost use Rattle.std.specs.Prelude.{◌≡◌, ◌+◌, ◌-◌, ◌*◌, ◌<◌, ◌≤◌, ℕ, length, if◌then◌else◌};
ghost use Rattle.choice_trace.specs.Lanes.{point_in};
ghost use Rattle.fixed_ops.specs.Counts.{RisesBy, points_of};
ghost use Rattle.view_places.specs.Spans.{IsInRoot};
ghost use Rattle.quad_descent.specs.Nodes.{rows_of};
ghost use Rattle.quad_descent.specs.Scans.{IsAtNext, IsTold, cut, nth_point, sample_count};

use crate::scan::Scan;
use box_chains::Places;
use choice_trace::{Inputs, evaluate_lanes};
use fixed_ops::{Fx, Tally, is_inside};
use live_clauses::Steps;
use view_places::IndexBox;

/// The rows of a leaf: a binary digit a sample, the last one lowest, and 1 for inside. The list is
/// evaluated once at each sample.
pub fn leaf_rows(
    places: &Places,
    b: IndexBox,
    list: &Steps<'_>,
    values: &mut [[Fx; 8]],
    tally: &mut Tally,
) -> [u8; 8]
    requires within { IsInRoot places.now.view places.now.lattice b }
    requires narrow { b.x1 - b.x0 ≤ 8 }
    requires low { b.y1 - b.y0 ≤ 8 }
    requires room { length list.now ≤ length values.old }
    ensures rows { result ≡ rows_of places.now.view places.now.lattice list.now b }
    ensures counted { RisesBy tally.old tally.new
        (points_of ((b.y1 - b.y0) * ((b.x1 - b.x0) * length list.now))) }
{
    let mut scan = Scan::new(b);
    tell_groups::<8>(places, b, list, &mut scan, values, tally);
    tell_groups::<4>(places, b, list, &mut scan, values, tally);
    tell_groups::<2>(places, b, list, &mut scan, values, tally);
    tell_groups::<1>(places, b, list, &mut scan, values, tally);
    cut_rows(scan.bits, b.x1 - b.x0, b.y1 - b.y0)
}

// Tells the samples of a leaf in groups of L, as long as so many are left.
fn tell_groups<const L: usize>(
    places: &Places,
    b: IndexBox,
    list: &Steps<'_>,
    scan: &mut Scan,
    values: &mut [[Fx; 8]],
    tally: &mut Tally,
)
    requires some { 0 < L }
    requires lanes { L ≤ 8 }
    requires within { IsInRoot places.now.view places.now.lattice b }
    requires small { sample_count b ≤ 64 }
    requires room { length list.now ≤ length values.old }
    requires told { IsTold places.now.view places.now.lattice list.now b scan.old }
    requires whole { scan.old.told ≤ sample_count b }
    ensures told { IsTold places.now.view places.now.lattice list.now b scan.new }
    ensures whole { scan.new.told ≤ sample_count b }
    ensures left { sample_count b < scan.new.told + L }
    ensures onward { scan.old.told ≤ scan.new.told }
    ensures counted { RisesBy tally.old tally.new
        (points_of ((scan.new.told - scan.old.told) * length list.now)) }
{
    let count = (b.x1 - b.x0) * (b.y1 - b.y0);
    while scan.told + L as u32 <= count {
        tell::<L>(places, b, list, scan, values, tally);
    }
}

// Tells the next L samples of a leaf.
fn tell<const L: usize>(
    places: &Places,
    b: IndexBox,
    list: &Steps<'_>,
    scan: &mut Scan,
    values: &mut [[Fx; 8]],
    tally: &mut Tally,
)
    requires lanes { L ≤ 8 }
    requires within { IsInRoot places.now.view places.now.lattice b }
    requires small { sample_count b ≤ 64 }
    requires room { length list.now ≤ length values.old }
    requires told { IsTold places.now.view places.now.lattice list.now b scan.old }
    requires left { scan.old.told + L ≤ sample_count b }
    ensures told { IsTold places.now.view places.now.lattice list.now b scan.new }
    ensures more { scan.new.told ≡ scan.old.told + L }
    ensures counted { RisesBy tally.old tally.new (points_of (L * length list.now)) }
{
    let inputs = gather::<L>(places, b, scan);
    let row = evaluate_lanes::<L>(list, &inputs, values, tally);
    for lane in 0..L {
        scan.bits = scan.bits * 2 + digit(is_inside(row[lane]));
    }
}

// The points of the next L samples of a leaf, which are passed.
#[inline]
fn gather<const L: usize>(places: &Places, b: IndexBox, scan: &mut Scan) -> Inputs<[Fx; 8]>
    requires lanes { L ≤ 8 }
    requires within { IsInRoot places.now.view places.now.lattice b }
    requires small { sample_count b ≤ 64 }
    requires next { IsAtNext b scan.old }
    requires left { scan.old.told + L ≤ sample_count b }
    ensures points { (lane : ℕ) → lane < L → point_in lane result
        ≡ nth_point places.now.view places.now.lattice b (scan.old.told + lane) }
    ensures next { IsAtNext b scan.new }
    ensures more { scan.new.told ≡ scan.old.told + L }
    ensures bits { scan.new.bits ≡ scan.old.bits }
{
    let z = [places.z(b.z0); 8];
    let mut x = z;
    let mut y = z;
    for lane in 0..L {
        x[lane] = places.x(scan.i);
        y[lane] = places.y(scan.j);
        scan.pass(b);
    }
    Inputs { x, y, z }
}

// The rows of a leaf of so many columns and rows, from the digits of its samples.
fn cut_rows(bits: u64, width: u32, height: u32) -> [u8; 8]
    requires narrow { width ≤ 8 }
    requires low { height ≤ 8 }
    ensures { result ≡ cut bits width height }
{
    let mut rows = [0; 8];
    for r in 0..height {
        rows[r as usize] = ((bits >> ((height - 1 - r) * width)) % (1 << width)) as u8;
    }
    rows
}

// The binary digit of a sample.
#[inline]
fn digit(inside: bool) -> u64
    ensures digit { result ≡ (if inside then 1 else 0) }
    ensures few { result ≤ 1 }
{
    u64::from(inside)
}
