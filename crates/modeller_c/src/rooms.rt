// The rooms of a caller, and what is handed over into them.
ghost use Rattle.modeller_c.specs.Rooms.{IsHandedOver};

/// Copies bytes to the front of a room, where it is long enough for them, and counts them in any case.
pub(crate) fn hand_over(bytes: &[u8], room: &mut [u8]) -> u64
    ensures { IsHandedOver bytes.now room.old room.new result }
{
    if bytes.len() <= room.len() {
        room[..bytes.len()].copy_from_slice(bytes);
    }
    bytes.len() as u64
}
