// What is done for a job.

use model_frames::Frame;
use view_places::View;
use view_settings::{Forge, Job};

/// What is done for a job.
#[derive(Clone, Copy, Debug, PartialEq, Eq)]
pub enum Task {
    /// A frame of the model that is read is drawn.
    Draw(Frame),
    /// The counts of an image of this view are told.
    Count(View),
    /// A model is made from a seed, and told of.
    Forge(Forge),
    /// A script is replayed.
    Replay,
    /// A solid that is written as forms is turned into a model.
    Solid,
    /// A mesh is checked.
    Check,
}

impl Task {
    ghost use Rattle.std.specs.Prelude.{◌≡◌};
    ghost use Rattle.view_settings.specs.Verbs.{IsJob};
    ghost use Rattle.modeller_cmd.specs.Tasks.{CanDo, task_of};

    /// What is done for a job: all that it may ask to be drawn is a frame.
    pub fn of(job: &Job) -> Task
        requires { IsJob job.now }
        ensures task { result ≡ task_of job.now }
        ensures can { CanDo result }
    {
        match job {
            Job::Render(view) => Task::Draw(Frame::Render(*view)),
            Job::Height(view) => Task::Draw(Frame::Height(*view)),
            Job::Shade(view) => Task::Draw(Frame::Shade(*view)),
            Job::Mesh(view) => Task::Draw(Frame::Mesh(*view)),
            Job::Contour(view) => Task::Draw(Frame::Contour(*view)),
            Job::Text => Task::Draw(Frame::Text),
            Job::Count(view) => Task::Count(*view),
            Job::Forge(wanted) => Task::Forge(*wanted),
            Job::Replay => Task::Replay,
            Job::Solid => Task::Solid,
            Job::Check => Task::Check,
        }
    }
}
