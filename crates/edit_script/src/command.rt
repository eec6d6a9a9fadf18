// One command of a script.

use solid_model::EditRef;
use view_places::View;

/// One command of a script, which lends its names.
#[derive(Debug, Drop)]
pub enum Command<'t> {
    /// An edit, and the number of its line among all lines of the input.
    Edit(u32, EditRef<'t>),
    /// An edit with a token that begins with `#` where it should name a clause, so that it can name
    /// none, by the number of its line. It is refused as one of a name that is unknown.
    Stray(u32),
    /// Take back the last edit that was accepted and is not taken back yet, and the number of its line.
    Undo(u32),
    /// An image of this view.
    Render(View),
    /// A height map of this view.
    Height(View),
    /// A mesh of this view.
    Mesh(View),
    /// The model as a text.
    Text,
    /// What the last image took.
    Cost,
}
