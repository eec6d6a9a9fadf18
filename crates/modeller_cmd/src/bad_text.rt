// Why the text of a job is refused.

use clause_reader::TextFault;
use ply_check::PlyFault;
use solid_lang::SolidFault;

/// Why the text of a job is refused: a fault for each kind of text.
#[derive(Clone, Copy, Debug, PartialEq, Eq)]
pub enum BadText {
    /// The text of a model.
    Model(TextFault),
    /// The text of a solid, written as forms.
    Solid(SolidFault),
    /// A mesh, in the ASCII form of PLY.
    Mesh(PlyFault),
}
