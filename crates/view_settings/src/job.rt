// What words ask for.
ghost use Rattle.std.specs.Prelude.{◌≡◌};
ghost use Rattle.view_settings.specs.Verbs.{reads};

use crate::{Forge, Reads};
use view_places::View;

/// What words ask for.
#[derive(Clone, Copy, Debug, PartialEq, Eq)]
pub enum Job {
    /// An image of this view.
    Render(View),
    /// A height map of this view.
    Height(View),
    /// A mesh of this view.
    Mesh(View),
    /// The counts of an image of this view.
    Count(View),
    /// The model as a text.
    Text,
    /// The frames of a script.
    Replay,
    /// A model that is made, and drawn.
    Forge(Forge),
    /// A shaded height map of this view.
    Shade(View),
    /// The outline of the solid at the height of this view.
    Contour(View),
    /// The model of a solid that is written as forms, as a text.
    Solid,
    /// What is found of a mesh: that it is closed and a manifold, or what breaks it.
    Check,
}

impl Job {
    /// What it reads.
    pub fn reads(&self) -> Reads
        ensures { result ≡ reads self.now }
    {
        match self {
            Job::Render(_)
            | Job::Height(_)
            | Job::Mesh(_)
            | Job::Count(_)
            | Job::Text
            | Job::Shade(_)
            | Job::Contour(_) => Reads::Model,
            Job::Replay => Reads::Script,
            Job::Forge(_) => Reads::Nothing,
            Job::Solid => Reads::Solid,
            Job::Check => Reads::Mesh,
        }
    }
}
