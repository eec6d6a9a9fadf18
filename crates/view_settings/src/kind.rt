// The lists of settings that verbs take, and the values that each setting may have.
ghost use Rattle.std.specs.Prelude.{◌≡◌, Some};
ghost use Rattle.view_settings.specs.Kinds.{contour_kind as contour_taken, forge_kind as forge_taken, height_kind as height_taken, image_kind as image_taken, mesh_kind as mesh_taken, solid_kind as solid_taken, window_kind as window_taken};

use crate::name::Name;

/// The values that a setting may have.
#[derive(Clone, Copy, Debug, PartialEq, Eq)]
pub enum Kind {
    /// The number of any numeral.
    Numeral,
    /// A whole number from `least` to `greatest`.
    Count { least: u64, greatest: u64 },
}

// A count that is at least 1.
#[inline]
fn count_to(greatest: u64) -> Option<Kind>
    ensures { result ≡ Some (Kind.Count 1 greatest) }
{
    Some(Kind::Count { least: 1, greatest })
}

/// What an image takes: a window, a height, columns and rows.
pub(crate) fn image_kind(name: Name) -> Option<Kind>
    ensures { result ≡ image_taken name }
{
    match name {
        Name::Z => Some(Kind::Numeral),
        Name::W | Name::H => count_to(4096),
        other => window_kind(other),
    }
}

/// What a height map takes: a window, a span along z, columns, rows and layers.
pub(crate) fn height_kind(name: Name) -> Option<Kind>
    ensures { result ≡ height_taken name }
{
    match name {
        Name::W | Name::H | Name::D => count_to(1024),
        other => solid_kind(other),
    }
}

/// What a mesh takes: a window, a span along z, and cells, along all axes alike and along each.
pub(crate) fn mesh_kind(name: Name) -> Option<Kind>
    ensures { result ≡ mesh_taken name }
{
    match name {
        Name::N => count_to(256),
        Name::Nx | Name::Ny | Name::Nz => count_to(512),
        other => solid_kind(other),
    }
}

/// What a contour takes: a window, a height, and cells, along both axes alike.
pub(crate) fn contour_kind(name: Name) -> Option<Kind>
    ensures { result ≡ contour_taken name }
{
    match name {
        Name::Z => Some(Kind::Numeral),
        Name::N => count_to(256),
        other => window_kind(other),
    }
}

/// What a model that is made takes: an image, where the generator starts, and how many discs it
/// makes.
pub(crate) fn forge_kind(name: Name) -> Option<Kind>
    ensures { result ≡ forge_taken name }
{
    match name {
        Name::Seed => Some(Kind::Count {
            least: 0,
            greatest: u64::MAX,
        }),
        Name::Solids => count_to(5000),
        other => image_kind(other),
    }
}

// A window and a span along z.
fn solid_kind(name: Name) -> Option<Kind>
    ensures { result ≡ solid_taken name }
{
    match name {
        Name::Z0 | Name::Z1 => Some(Kind::Numeral),
        other => window_kind(other),
    }
}

// The ends of a window.
fn window_kind(name: Name) -> Option<Kind>
    ensures { result ≡ window_taken name }
{
    match name {
        Name::X0 | Name::X1 | Name::Y0 | Name::Y1 => Some(Kind::Numeral),
        Name::Z0
        | Name::Z1
        | Name::Z
        | Name::W
        | Name::H
        | Name::D
        | Name::N
        | Name::Nx
        | Name::Ny
        | Name::Nz
        | Name::Seed
        | Name::Solids => None,
    }
}
