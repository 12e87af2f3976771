// The words of a request, from a place on: bytes, as `sample_text` reads them. A word that its line lacks is the next line's.
ghost use Rattle.std.specs.Prelude.{◌/◌, ◌≤◌, length};
ghost use Rattle.std.specs.Option.{IfSome};

use geometry::Point2;
use sample_text::{Points, double_at, number_at, points_at, word_at};

// Up to seven numbers of a request. Where it has fewer, the rest is not used.
pub type Numbers = [f64; 7];

#[derive(Clone, Copy)]
pub struct Words<'a> {
    pub text: &'a [u8],
    pub at: usize,
}

impl<'a> Words<'a> {
    pub fn word(&mut self) -> &'a [u8] {
        let word = word_at(self.text, self.at);
        self.at = word.next;
        word.value
    }

    // The last eight letters of a name, which tell the functions apart.
    pub fn name(&mut self) -> &'a [u8] {
        let word = self.word();
        &word[word.len().saturating_sub(8)..]
    }

    pub fn number(&mut self) -> u64 {
        let word = number_at(self.text, self.at);
        self.at = word.next;
        word.value
    }

    pub fn double(&mut self) -> f64 {
        let word = double_at(self.text, self.at);
        self.at = word.next;
        word.value
    }

    pub fn plane(&mut self) -> Point2 {
        let x = self.double();
        let y = self.double();
        Point2 { x, y }
    }

    // The next seven words as numbers, whether the request has so many or not.
    pub fn numbers(mut self) -> Numbers {
        let mut numbers = [0.0; 7];
        for x in numbers.iter_mut() {
            *x = self.double();
        }
        numbers
    }

    pub fn points(&mut self) -> Points {
        let points = points_at(self.text, self.at);
        self.at = points.next;
        points
    }
}

// The coordinates of a polyline; none of more than 64 points.
pub fn coords_of(points: &Points) -> Option<&[f64]>
    ensures { IfSome result (λ cs. length cs.now / 3 ≤ 64) }
{
    if points.count > 64 {
        return None;
    }
    let end = points.count as usize * 3;
    Some(&points.coords[..end])
}
