// The steps of a solid, from its forms.
ghost use Rattle.std.specs.Prelude.{◌≡◌, ◌≤◌, IfOk, OnOk};
ghost use Rattle.solid_lang.specs.Compiled.{all_steps};
ghost use Rattle.solid_lang.specs.Counts.{clause_count};
ghost use Rattle.solid_lang.specs.Placing.{StandBefore};
ghost use Rattle.solid_lang.specs.Solids.{tree};
ghost use Rattle.solid_lang.specs.Steps.{after, solid_steps};

use crate::Solid;
use crate::axes::Axes;
use crate::form_steps::{
    ball, block, coordinates, cylinder, difference, first_axes, intersection, moved, moved_axes,
    scaled, scaled_axes, union,
};
use crate::step_sink::StepSink;
use std::alloc::AllocError;

/// Puts the steps of a solid behind those of the coordinates. AllocError: memory was refused.
#[tactic(auto, using(crate::proofs::FitLemmas::coordinates_fit))]
pub(crate) fn put_all<S: StepSink>(sink: &mut S, solid: &Solid) -> Result<(), AllocError>
    requires next { S.takes sink.old 0 }
    requires few { clause_count (tree solid.now) ≤ 65535 }
    ensures { OnOk result (S.grows sink.old sink.new 0 (all_steps (tree solid.now))) }
{
    let place = sink.put(0, &coordinates())?;
    put_solid(sink, place, first_axes(), solid)?;
    Ok(())
}

// Puts the steps of a solid of which the first stands at a place, over the coordinates at these places,
// and gives the place behind the last.
#[tactic(auto, using(crate::proofs::FitLemmas::ball_fits, crate::proofs::FitLemmas::box_fits, crate::proofs::FitLemmas::cylinder_fits, crate::proofs::FitLemmas::move_fits, crate::proofs::FitLemmas::scale_fits))]
fn put_solid<S: StepSink>(sink: &mut S, n: u32, at: Axes, solid: &Solid) -> Result<u32, AllocError>
    requires next { S.takes sink.old n }
    requires axes { StandBefore n at }
    requires few { after n (tree solid.now) ≤ 65535 }
    ensures grows { OnOk result (S.grows sink.old sink.new n (solid_steps (tree solid.now) n at)) }
    ensures end { IfOk result (λ end. end ≡ after n (tree solid.now)) }
    ensures next { OnOk result (S.takes sink.new (after n (tree solid.now))) }
{
    match solid {
        Solid::Ball(r) => sink.put(n, &ball(n, at, *r)),
        Solid::Block(a, b, c) => sink.put(n, &block(n, at, *a, *b, *c)),
        Solid::Cylinder(r, h) => sink.put(n, &cylinder(n, at, *r, *h)),
        Solid::Move(x, y, z, inner) => {
            let next = sink.put(n, &moved(n, at, *x, *y, *z))?;
            put_solid(sink, next, moved_axes(n), inner)
        }
        Solid::Scale(k, inner) => {
            let next = sink.put(n, &scaled(n, at, *k))?;
            put_solid(sink, next, scaled_axes(n), inner)
        }
        Solid::Union(a, b) => {
            let first = put_solid(sink, n, at, a)?;
            let second = put_solid(sink, first, at, b)?;
            sink.put(second, &union(first - 1, second - 1))
        }
        Solid::Intersect(a, b) => {
            let first = put_solid(sink, n, at, a)?;
            let second = put_solid(sink, first, at, b)?;
            sink.put(second, &intersection(first - 1, second - 1))
        }
        Solid::Difference(a, b) => {
            let first = put_solid(sink, n, at, a)?;
            let second = put_solid(sink, first, at, b)?;
            sink.put(second, &difference(second, first - 1, second - 1))
        }
    }
}
