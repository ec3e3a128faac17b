// Where the lines of a record's text may be found: their places, sorted by what stands there. What is found by them is compared, so nothing
// is claimed of them; they only spare the search through all lines.
ghost use Rattle.std.specs.Prelude.{◌≤◌, length};

use std::cmp::Ordering;
use text::until;

// What stands from a place on, up to the end.
fn tail(text: &[u8], place: u16) -> &[u8] {
    text.get(usize::from(place)..).unwrap_or(&[])
}

// Which of two texts comes first, by their first bytes that differ. Two lines mostly differ soon, and the library's comparison goes by blocks.
fn order(a: &[u8], b: &[u8]) -> Ordering {
    for (x, y) in a.iter().zip(b) {
        if *x != *y {
            return x.cmp(y);
        }
    }
    a.len().cmp(&b.len())
}

// The places of the first lines, as many as there is room for. The answer is how many.
fn collect(text: &[u8], places: &mut [u16]) -> usize
    ensures { result ≤ length places.new }
{
    let mut at = 2;
    for (n, place) in places.iter_mut().enumerate() {
        if at >= text.len() {
            return n;
        }
        let Ok(start) = u16::try_from(at) else {
            return n;
        };
        *place = start;
        at = until(text, at, b'\n') + 1;
    }
    places.len()
}

// The places of the lines, sorted.
pub fn lines_of<'a>(text: &[u8], places: &'a mut [u16]) -> &'a [u16]
    ensures { length result.now ≤ length places.old }
{
    let n = collect(text, places);
    let lines = &mut places[..n];
    lines.sort_unstable_by(|a, b| order(tail(text, *a), tail(text, *b)));
    lines
}

// The first of the sorted places at which nothing stands that comes before the line: where that stands, if it is there.
pub fn guess(text: &[u8], places: &[u16], line: &[u8]) -> Option<usize> {
    let n = places.partition_point(|place| order(tail(text, *place), line).is_lt());
    places.get(n).map(|place| usize::from(*place))
}
