// How far a header has been read.
ghost use Rattle.std.specs.Prelude.{◌≡◌, ◌+◌, ◌^◌, ◌<◌};
ghost use Rattle.ply_check.specs.Answers.{step_after, width_at};

use crate::header::Header;
use crate::header_line::HeaderLine;

/// What has been read of a header, and so what may follow.
#[derive(Clone, Copy, Debug, PartialEq, Eq)]
pub(crate) enum Stage {
    /// The first line.
    Opened,
    /// The format.
    Formatted,
    /// How many vertices there are.
    Counted(u32),
    /// How many vertices there are, and so many of a vertex's properties, at least one.
    Measured(u32, u32),
    /// All but the list of a face's vertices.
    Listed(Header),
    /// All but the end.
    Described(Header),
}

/// Where a line of a header leads.
#[derive(Clone, Copy, Debug, PartialEq, Eq)]
pub(crate) enum Step {
    /// To a further line of the header.
    On(Stage),
    /// To the lines behind it.
    Out(Header),
}

impl Stage {
    // Where a line leads that says this. `None`: it may not stand there.
    pub(crate) fn after(self, line: HeaderLine) -> Option<Step>
        requires { width_at self + 1 < 2 ^ 32 }
        ensures step { result ≡ step_after self line }
    {
        match (self, line) {
            (stage, HeaderLine::Comment) => Some(Step::On(stage)),
            (Stage::Opened, HeaderLine::Format) => Some(Step::On(Stage::Formatted)),
            (Stage::Formatted, HeaderLine::Vertices(count)) => Some(Step::On(Stage::Counted(
                count,
            ))),
            (Stage::Counted(count), HeaderLine::Property) => {
                Some(Step::On(Stage::Measured(count, 1)))
            }
            (Stage::Measured(count, width), HeaderLine::Property) => {
                Some(Step::On(Stage::Measured(count, width + 1)))
            }
            (Stage::Measured(vertices, width), HeaderLine::Faces(faces)) => {
                Some(Step::On(Stage::Listed(Header {
                    vertices,
                    width,
                    faces,
                })))
            }
            (Stage::Listed(header), HeaderLine::FaceList) => {
                Some(Step::On(Stage::Described(header)))
            }
            (Stage::Described(header), HeaderLine::End) => Some(Step::Out(header)),
            _ => None,
        }
    }
}
