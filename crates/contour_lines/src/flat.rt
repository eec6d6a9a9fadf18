// Views laid flat.
ghost use Rattle.std.specs.Prelude.{◌≡◌};
ghost use Rattle.contour_lines.specs.Planes.{laid_flat};

use view_places::View;

/// A view laid flat at its height, with one cell along z.
#[inline]
pub fn lay_flat(view: &View) -> View
    ensures { result ≡ laid_flat view.now }
{
    View {
        z0: view.z,
        z1: view.z,
        nz: 1,
        ..*view
    }
}
