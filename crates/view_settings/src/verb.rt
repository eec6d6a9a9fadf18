// What a run is asked to do: the verbs, with all that is said of each.
ghost use Rattle.std.specs.Prelude.{◌≡◌, ◌≢◌, ◌≤◌, IfOk, IfSome, IfNone};
ghost use Rattle.std.specs.List.{AllByRecursion};
ghost use Rattle.view_settings.specs.declared.verb.Verb.{Verb};
ghost use Rattle.view_settings.specs.Kinds.{HasHeightSides, HasOneCount};
ghost use Rattle.view_settings.specs.Setting.{IsSetting};
ghost use Rattle.view_settings.specs.Verbs.{IsJob, contour_job, job_with, kind_of, mesh_job, verb_text};
ghost use Rattle.view_settings.specs.Views.{window_of};
ghost use Rattle.view_places.specs.Window.{FitsHeight, IsWindow};

use crate::given::forge_given;
use crate::kind::{Kind, contour_kind, forge_kind, height_kind, image_kind, mesh_kind};
use crate::name::Name;
use crate::setting::Setting;
use crate::{Job, WordReason};
use view_places::View;

/// What a run is asked to do.
#[derive(Clone, Copy, Debug, PartialEq, Eq)]
pub enum Verb {
    /// Draw an image.
    Render,
    /// Draw a height map.
    Height,
    /// Make a mesh.
    Mesh,
    /// Count the work of an image.
    Count,
    /// Write the model as a text.
    Text,
    /// Follow a script.
    Replay,
    /// Make a model of its own and draw it.
    Forge,
    /// Draw a height map, shaded.
    Shade,
    /// Draw the outline of a solid at one height.
    Contour,
    /// Make a model of a solid that is written as forms.
    Solid,
    /// Check whether a mesh is closed and a manifold.
    Check,
}

// The verb that is written so.
pub(crate) fn read_verb(word: &[u8]) -> Option<Verb>
    ensures found { IfSome result (λ verb. word.now ≡ verb_text verb) }
    ensures missing { IfNone result ((verb : Verb) → word.now ≢ verb_text verb) }
{
    match word {
        b"render" => Some(Verb::Render),
        b"height" => Some(Verb::Height),
        b"mesh" => Some(Verb::Mesh),
        b"count" => Some(Verb::Count),
        b"text" => Some(Verb::Text),
        b"replay" => Some(Verb::Replay),
        b"forge" => Some(Verb::Forge),
        b"shade" => Some(Verb::Shade),
        b"contour" => Some(Verb::Contour),
        b"solid" => Some(Verb::Solid),
        b"check" => Some(Verb::Check),
        _ => None,
    }
}

impl Verb {
    /// The values that a setting of this name may have, and None where the verb has no such
    /// setting.
    pub(crate) fn kind(self, name: Name) -> Option<Kind>
        ensures { result ≡ kind_of self name }
    {
        match self {
            Verb::Render | Verb::Count => image_kind(name),
            Verb::Height | Verb::Shade => height_kind(name),
            Verb::Mesh => mesh_kind(name),
            Verb::Text | Verb::Replay | Verb::Solid | Verb::Check => None,
            Verb::Forge => forge_kind(name),
            Verb::Contour => contour_kind(name),
        }
    }

    /// The job with the settings that were taken, of which this is the view.
    pub(crate) fn job(self, taken: &[Setting], view: View) -> Result<Job, WordReason>
        requires each { AllByRecursion (IsSetting self) taken.now }
        requires view { view ≡ window_of taken.now }
        requires window { IsWindow view }
        requires height { HasHeightSides (kind_of self) → FitsHeight view }
        requires square { HasOneCount (kind_of self) → (view.nx ≡ view.ny) × (view.nx ≤ 256) }
        ensures job { result ≡ job_with self taken.now }
        ensures keeps { IfOk result IsJob }
    {
        match self {
            Verb::Render => Ok(Job::Render(view)),
            Verb::Height => Ok(Job::Height(view)),
            Verb::Mesh => mesh_job(view),
            Verb::Count => Ok(Job::Count(view)),
            Verb::Text => Ok(Job::Text),
            Verb::Replay => Ok(Job::Replay),
            Verb::Forge => Ok(Job::Forge(forge_given(self, taken, view))),
            Verb::Shade => Ok(Job::Shade(view)),
            Verb::Contour => contour_job(view),
            Verb::Solid => Ok(Job::Solid),
            Verb::Check => Ok(Job::Check),
        }
    }
}

// A mesh of this view.
fn mesh_job(view: View) -> Result<Job, WordReason>
    requires { IsWindow view }
    ensures job { result ≡ mesh_job view }
    ensures keeps { IfOk result IsJob }
{
    if !view.cells_have_room() {
        return Err(WordReason::CellTooSmall);
    }
    if !view.cells_are_few() {
        return Err(WordReason::TooManyCells);
    }
    Ok(Job::Mesh(view))
}

// A contour of this view.
fn contour_job(view: View) -> Result<Job, WordReason>
    requires window { IsWindow view }
    requires square { view.nx ≡ view.ny }
    requires few { view.nx ≤ 256 }
    ensures job { result ≡ contour_job view }
    ensures keeps { IfOk result IsJob }
{
    if !view.plane_cells_have_room() {
        return Err(WordReason::CellTooSmall);
    }
    Ok(Job::Contour(view))
}
