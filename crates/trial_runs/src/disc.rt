// A model that many tests draw.

/// The seven clauses of x * x + y * y - 0.5, which is below zero within a disc about the middle.
pub const DISC: &[u8] =
    b"a var-x\nb var-y\nc mul a a\nd mul b b\ne add c d\nr const 0.5\nf sub e r\n";

/// The picture of the disc with three samples a side. Only the sample in the middle lies within:
/// those next to it have the value 0.5, and the corners 1.5.
pub const DISC_PICTURE: &[u8] = b"P5\n3 3\n255\n\x00\x00\x00\x00\xff\x00\x00\x00\x00";

/// The words that ask for three samples a side.
pub const THREE_BY_THREE: &[&str] = &["render", "w=3", "h=3"];
