// What a stored answer says, word for word.
use centerline::{Line, Stations};
use geometry::{Location, NearestPoint, Point2, Point3};
use sample_text::{expect, expect_number, word_at};

// What a request came to, beside the stored answer.
#[derive(Clone, Copy)]
pub enum Outcome {
    Met,
    Missed,
    NotAsked,
}

impl Outcome {
    // The other one, where this was not asked: only then it is worked out.
    pub fn or_else<F: FnOnce() -> Outcome + Drop>(self, other: F) -> Outcome
        requires { F.IsAlwaysCallable other }
    {
        match self {
            Outcome::NotAsked => other(),
            asked => asked,
        }
    }
}

// The words of a stored answer from `at` on, and those of the lines after it; 0 once a word was another than it should be.
#[derive(Drop)]
pub struct Answer<'a> {
    text: &'a [u8],
    at: usize,
}

// What an answer may hold, met word for word.
pub trait Stored {
    fn meet(&self, answer: &mut Answer<'_>);
}

impl Stored for f64 {
    fn meet(&self, answer: &mut Answer<'_>) {
        answer.at = expect(answer.text, answer.at, *self);
    }
}

impl Stored for u64 {
    fn meet(&self, answer: &mut Answer<'_>) {
        answer.at = expect_number(answer.text, answer.at, *self);
    }
}

impl Stored for bool {
    fn meet(&self, answer: &mut Answer<'_>) {
        u64::from(*self).meet(answer);
    }
}

impl Stored for Point2 {
    fn meet(&self, answer: &mut Answer<'_>) {
        self.x.meet(answer);
        self.y.meet(answer);
    }
}

impl Stored for Point3 {
    fn meet(&self, answer: &mut Answer<'_>) {
        self.x.meet(answer);
        self.y.meet(answer);
        self.z.meet(answer);
    }
}

impl Stored for Location {
    fn meet(&self, answer: &mut Answer<'_>) {
        self.segment.meet(answer);
        self.fraction.meet(answer);
    }
}

impl Stored for NearestPoint {
    fn meet(&self, answer: &mut Answer<'_>) {
        self.point.meet(answer);
        self.distance.meet(answer);
        self.station.meet(answer);
        self.segment.meet(answer);
        self.lateral.meet(answer);
    }
}

impl<T: Stored> Stored for Option<T> {
    fn meet(&self, answer: &mut Answer<'_>) {
        self.is_some().meet(answer);
        if let Some(x) = self {
            x.meet(answer);
        }
    }
}

// A count, and the numbers that it stands for.
fn meet_list(count: usize, numbers: &[f64], answer: &mut Answer<'_>) {
    (count as u64).meet(answer);
    for x in numbers {
        x.meet(answer);
    }
}

impl Stored for Line {
    fn meet(&self, answer: &mut Answer<'_>) {
        let numbers = self.coords.get(..self.count.saturating_mul(3));
        meet_list(self.count, numbers.unwrap_or(&[]), answer);
    }
}

impl Stored for Stations {
    fn meet(&self, answer: &mut Answer<'_>) {
        let numbers = self.values.get(..self.count);
        meet_list(self.count, numbers.unwrap_or(&[]), answer);
    }
}

// What was worked out, beside the stored answer: it stands behind its line's first word.
pub fn compared<T: Stored + Drop>(found: T, text: &[u8]) -> Outcome {
    let mut answer = Answer {
        text,
        at: word_at(text, 0).next,
    };
    found.meet(&mut answer);
    if answer.at == 0 {
        Outcome::Missed
    } else {
        Outcome::Met
    }
}
