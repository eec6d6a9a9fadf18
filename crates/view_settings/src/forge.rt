// What is forged.

use view_places::View;

/// A model to be made, and the view in which it is drawn.
#[derive(Clone, Copy, Debug, PartialEq, Eq)]
pub struct Forge {
    /// Where the generator starts.
    pub seed: u64,
    /// How many discs the model has.
    pub solids: u32,
    /// The view in which it is drawn.
    pub view: View,
}
