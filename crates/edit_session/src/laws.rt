// What always holds of what a session takes, and of what it was opened with.
ghost use Rattle.edit_session.specs.Laws.{FramesTakeNoMore, OpeningStands, RefusalsBeginAnew};

/// After an image or a mesh that was refused, the next one of its kind takes exactly what a fresh one does,
/// and the next one of the other kind what it would have taken without it. A height map or a text that was
/// refused leaves the session as it was.
pub fn refusals_begin_anew()
    ensures { RefusalsBeginAnew }
{}

/// Frames, edits and edits that are taken back leave what a session was opened with. Once no edit is left
/// to be taken back, that is its model.
pub fn opening_stands()
    ensures { OpeningStands }
{}

/// A frame of a session takes no more than the same frame alone, whatever was drawn before it and whichever
/// edits came since: at least, at most, and where it is refused.
pub fn frames_take_no_more()
    ensures { FramesTakeNoMore }
{}
