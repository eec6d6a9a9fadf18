// The names of settings.
ghost use Rattle.std.specs.Prelude.{◌≡◌, ◌≢◌, IfSome, IfNone};
ghost use Rattle.view_settings.specs.declared.name.Name.{Name};
ghost use Rattle.view_settings.specs.Names.{name_text};

/// What a setting sets.
#[derive(Clone, Copy, Debug, Default, PartialEq, Eq)]
pub enum Name {
    #[default]
    X0,
    X1,
    Y0,
    Y1,
    Z0,
    Z1,
    Z,
    W,
    H,
    D,
    N,
    Nx,
    Ny,
    Nz,
    Seed,
    Solids,
}

// The name that is written so.
pub(crate) fn read_name(text: &[u8]) -> Option<Name>
    ensures found { IfSome result (λ name. text.now ≡ name_text name) }
    ensures missing { IfNone result ((name : Name) → text.now ≢ name_text name) }
{
    match text {
        b"x0" => Some(Name::X0),
        b"x1" => Some(Name::X1),
        b"y0" => Some(Name::Y0),
        b"y1" => Some(Name::Y1),
        b"z0" => Some(Name::Z0),
        b"z1" => Some(Name::Z1),
        b"z" => Some(Name::Z),
        b"w" => Some(Name::W),
        b"h" => Some(Name::H),
        b"d" => Some(Name::D),
        b"n" => Some(Name::N),
        b"nx" => Some(Name::Nx),
        b"ny" => Some(Name::Ny),
        b"nz" => Some(Name::Nz),
        b"seed" => Some(Name::Seed),
        b"solids" => Some(Name::Solids),
        _ => None,
    }
}
