// Answers written into lent arrays, and their codes.
ghost use Rattle.std.specs.Prelude.{◌≡◌};
ghost use Rattle.refusal.specs.Answer.{answered, answered_as};
ghost use Rattle.told.specs.Told.{Told, always, perhaps};
ghost use Rattle.centerline.specs.Line.{points_of, line_option, stations_of};
ghost use Rattle.geometry_export.specs.Lent.{lent, word_in, number_in, plane_in, space_in, location_in, nearest_in, line_in, stations_in, flagged};

use centerline::{Line, Stations};
use geometry::{Location, NearestPoint, Point2, Point3};
use refusal::Refusal;

// The result where there is no answer: a number that no refusal has.
pub const NO_ANSWER: u64 = 254;

// ---- into one array

// What is written into an array, and how it reads there.
pub trait Written {
    type Room;

    ghost read: { Self.Room → Self };

    fn write(self, out: &mut Self::Room)
        ensures { read out.new ≡ self };
}

impl Written for f64 {
    type Room = [f64; 1];

    ghost read = { number_in };

    fn write(self, out: &mut [f64; 1]) {
        *out = [self];
    }
}

impl Written for Point2 {
    type Room = [f64; 2];

    ghost read = { plane_in };

    fn write(self, out: &mut [f64; 2]) {
        *out = [self.x, self.y];
    }
}

impl Written for Point3 {
    type Room = [f64; 3];

    ghost read = { space_in };

    fn write(self, out: &mut [f64; 3]) {
        *out = [self.x, self.y, self.z];
    }
}

pub fn always<T: Written + Drop>(a: Result<T, Refusal>, out: &mut T::Room) -> u64
    ensures { Told (always (answered a)) T.read result out.old out.new }
{
    match a {
        Ok(x) => {
            x.write(out);
            0
        }
        Err(refused) => refused.number(),
    }
}

pub fn perhaps<T: Written + Drop>(a: Result<Option<T>, Refusal>, out: &mut T::Room) -> u64
    ensures { Told (perhaps (answered a)) T.read result out.old out.new }
{
    match a {
        Ok(Some(x)) => {
            x.write(out);
            0
        }
        Ok(None) => NO_ANSWER,
        Err(r) => r.number(),
    }
}

// 1 for yes, 0 for no.
#[tactic(auto, unfolding(crate::specs::Lent::flagged))]
pub fn truth(a: Result<bool, Refusal>, word: &mut [u64; 1]) -> u64
    ensures { Told (always (flagged (answered a))) word_in result word.old word.new }
{
    match a {
        Ok(b) => {
            *word = [u64::from(b)];
            0
        }
        Err(r) => r.number(),
    }
}

// ---- into two arrays, numbers and a word

// Each has sizes and a reading of its own: one function for all would take them as parameters, and be called once for each.

pub fn location(
    a: Result<Option<Location>, Refusal>,
    fraction: &mut [f64; 1],
    segment: &mut [u64; 1],
) -> u64
    ensures { Told (perhaps (answered a)) location_in result (lent fraction.old segment.old) (lent fraction.new segment.new) }
{
    match a {
        Ok(Some(l)) => {
            *fraction = [l.fraction];
            *segment = [l.segment];
            0
        }
        Ok(None) => NO_ANSWER,
        Err(r) => r.number(),
    }
}

pub fn nearest(
    a: Result<Option<NearestPoint>, Refusal>,
    out: &mut [f64; 6],
    segment: &mut [u64; 1],
) -> u64
    ensures { Told (perhaps (answered a)) nearest_in result (lent out.old segment.old) (lent out.new segment.new) }
{
    match a {
        Ok(Some(n)) => {
            let q = n.point;
            *out = [q.x, q.y, q.z, n.distance, n.station, n.lateral];
            *segment = [n.segment];
            0
        }
        Ok(None) => NO_ANSWER,
        Err(r) => r.number(),
    }
}

pub fn line(a: Result<Line, Refusal>, out: &mut [f64; 192], count: &mut [u64; 1]) -> u64
    ensures { Told (always (answered_as points_of a)) line_in result (lent out.old count.old) (lent out.new count.new) }
{
    match a {
        Ok(l) => {
            let coords = l.coords;
            *out = coords;
            *count = [l.count as u64];
            0
        }
        Err(r) => r.number(),
    }
}

#[tactic(auto, unfolding(centerline::specs::Line::line_option))]
pub fn center(a: Result<Option<Line>, Refusal>, out: &mut [f64; 192], count: &mut [u64; 1]) -> u64
    ensures { Told (perhaps (answered_as line_option a)) line_in result (lent out.old count.old) (lent out.new count.new) }
{
    match a {
        Ok(Some(l)) => {
            let coords = l.coords;
            *out = coords;
            *count = [l.count as u64];
            0
        }
        Ok(None) => NO_ANSWER,
        Err(r) => r.number(),
    }
}

pub fn stations(a: Result<Stations, Refusal>, out: &mut [f64; 64], count: &mut [u64; 1]) -> u64
    ensures { Told (always (answered_as stations_of a)) stations_in result (lent out.old count.old) (lent out.new count.new) }
{
    match a {
        Ok(s) => {
            let values = s.values;
            *out = values;
            *count = [s.count as u64];
            0
        }
        Err(x) => x.number(),
    }
}
