//! What is made of a text, in a room.
ghost use Rattle.std.specs.Prelude.{◌≡◌, ◌⊎◌, ℤ, pos, length};
ghost use Rattle.onu_cell.specs.Numbers.{small};
ghost use Rattle.onu_scripts.specs.Making.{MakesInto, made_number};

use onu_cell::SMALL;
use onu_texts::put;

/// Puts a text to the front of a room: 0; or 1, where it says what is wrong, or where something is found.
pub(crate) fn put_made(is_one: bool, text: &[u8], room: &mut [u8], written: &mut usize) -> i32
    ensures made { MakesInto room.old room.new result written.new }
    ensures tells { result ≡ small ⊎ result ≡ made_number is_one }
{
    if !put(text, room, written) {
        return SMALL;
    }
    i32::from(is_one)
}
