// How many clauses a solid has.
ghost use Rattle.std.specs.Prelude.{◌≡◌, min};
ghost use Rattle.solid_lang.specs.Counts.{clause_count, form_clauses};
ghost use Rattle.solid_lang.specs.RawSolids.{HasRawNumbers};
ghost use Rattle.solid_lang.specs.Solids.{tree};

use crate::Solid;
use fixed_ops::raw_range;

// More clauses than a model may have.
const TOO_MANY: u32 = 65_536;

/// How many clauses a solid has, or `TOO_MANY` where that is less.
pub(crate) fn count_clauses(solid: &Solid) -> u32
    ensures count { result ≡ min (clause_count (tree solid.now)) 65536 }
    ensures raw { HasRawNumbers (tree solid.now) }
{
    (count_forms(solid) + 3).min(TOO_MANY)
}

// How many of them are not coordinates.
fn count_forms(solid: &Solid) -> u32
    ensures count { result ≡ min (form_clauses (tree solid.now)) 65536 }
    ensures raw { HasRawNumbers (tree solid.now) }
{
    let count = match solid {
        Solid::Ball(r) => {
            raw_range(*r);
            8
        }
        Solid::Block(a, b, c) => {
            raw_range(*a);
            raw_range(*b);
            raw_range(*c);
            11
        }
        Solid::Cylinder(r, h) => {
            raw_range(*r);
            raw_range(*h);
            10
        }
        Solid::Move(x, y, z, inner) => {
            raw_range(*x);
            raw_range(*y);
            raw_range(*z);
            count_forms(inner) + 6
        }
        Solid::Scale(k, inner) => {
            raw_range(*k);
            count_forms(inner) + 4
        }
        Solid::Union(a, b) | Solid::Intersect(a, b) => count_forms(a) + count_forms(b) + 1,
        Solid::Difference(a, b) => count_forms(a) + count_forms(b) + 2,
    };
    count.min(TOO_MANY)
}
