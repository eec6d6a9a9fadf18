// Boxes that a list is traced over.

use view_places::IndexBox;

/// A box that a list is traced over. It may be held open: then it hands on a list also where all of
/// it is inside. The default is not.
#[derive(Clone, Copy, Debug, Default)]
pub struct AskedBox {
    /// The box.
    pub range: IndexBox,
    /// Whether it is held open.
    pub held: bool,
}
