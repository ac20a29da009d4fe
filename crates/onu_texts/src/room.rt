//! A text in a room.
ghost use Rattle.std.specs.Prelude.{◌≡◌, ◌≤◌, length};
ghost use Rattle.onu_texts.specs.Room.{fits, room_with};

/// Puts a text to the front of a room, and says how many bytes it has. It answers whether the text fits: a room that is too small stays
/// as it is.
pub fn put(text: &[u8], room: &mut [u8], written: &mut usize) -> bool
    ensures written { written.new ≡ length text.now }
    ensures fits { result ≡ fits text.now room.old }
    ensures room { room.new ≡ room_with text.now room.old }
{
    *written = text.len();
    if text.len() > room.len() {
        return false;
    }
    room[..text.len()].copy_from_slice(text);
    true
}
