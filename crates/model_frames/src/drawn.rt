// What is drawn of a model.

use oct_descent::CellGrid;
use quad_descent::Picture;
use view_places::View;

/// What is drawn of a model, as far as its bytes need memory of their own.
#[derive(Debug, Drop)]
pub enum Drawn {
    /// The boxes of an image, whose rows are still to be painted.
    Image(Picture),
    /// The pixels of a picture of this view, whose header is still to be made.
    Pixels(View, Vec<u8>),
    /// The grid of its root list, the text of whose mesh is still to be made.
    Mesh(CellGrid),
    /// All of its bytes.
    Bytes(Vec<u8>),
}
