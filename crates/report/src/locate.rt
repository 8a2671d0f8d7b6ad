// The position of a byte of a text.
ghost use Rattle.std.specs.Prelude.{◌≡◌, take};
ghost use Rattle.report.specs.Positions.{position_of};

use crate::position::Position;

// The position of the byte at `place`; places behind the text count as its end.
pub fn locate(text: &[u8], place: usize) -> Position
    ensures { result ≡ position_of (take place text.now) }
{
    let (front, _) = text.split_at(place.min(text.len()));
    let behind = front
        .iter()
        .rev()
        .take_while(|byte| **byte != b'\n')
        .count();
    // Feeds stand before that alone, so that each byte is looked at once.
    let (before, _) = front.split_at(front.len() - behind);
    let feeds = before.iter().filter(|byte| **byte == b'\n').count();
    Position {
        line: 1 + feeds,
        column: 1 + behind,
    }
}
