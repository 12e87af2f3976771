// Cases on polylines; not asked where the name is none of these, or a polyline has more than 64 points. A name is told by its last
// eight letters.
use crate::answer::{Outcome, compared};
use crate::words::{Words, coords_of};

// A request of points alone.
fn whole(name: &[u8], mut words: Words<'_>, answer: &[u8]) -> Outcome {
    let points = words.points();
    let Some(cs) = coords_of(&points) else {
        return Outcome::NotAsked;
    };
    match name {
        b"length" => compared(polyline::length::length(cs), answer),
        b"is_valid" => compared(polyline::length::is_valid(cs), answer),
        b"stations" => compared(centerline::measure::stations(cs), answer),
        b"reversed" => compared(centerline::reversed::reversed(cs), answer),
        _ => Outcome::NotAsked,
    }
}

// A request that starts with a station or fraction.
fn along(name: &[u8], mut words: Words<'_>, answer: &[u8]) -> Outcome {
    let s = words.double();
    let points = words.points();
    let Some(cs) = coords_of(&points) else {
        return Outcome::NotAsked;
    };
    match name {
        b"locate" => compared(polyline::locate::locate(cs, s), answer),
        b"point_at" => compared(polyline::locate::point_at(cs, s), answer),
        b"fraction" => compared(polyline::locate::point_at_fraction(cs, s), answer),
        b"ction_at" => compared(polyline::direction::direction_at(cs, s), answer),
        _ => Outcome::NotAsked,
    }
}

fn nearest(mut words: Words<'_>, answer: &[u8]) -> Outcome {
    let p = words.plane();
    let points = words.points();
    match coords_of(&points) {
        Some(cs) => compared(polyline::nearest::nearest_point(cs, p), answer),
        None => Outcome::NotAsked,
    }
}

fn resampled(mut words: Words<'_>, answer: &[u8]) -> Outcome {
    let n = words.number();
    let points = words.points();
    match coords_of(&points) {
        Some(cs) if n <= 64 => compared(
            centerline::resample::resample_count(cs, n as usize),
            answer,
        ),
        _ => Outcome::NotAsked,
    }
}

fn middle(mut words: Words<'_>, answer: &[u8]) -> Outcome {
    let left = words.points();
    let right = words.points();
    match (coords_of(&left), coords_of(&right)) {
        (Some(l), Some(r)) => compared(centerline::middle::centerline(l, r), answer),
        _ => Outcome::NotAsked,
    }
}

pub fn case(name: &[u8], words: Words<'_>, answer: &[u8]) -> Outcome {
    match name {
        b"length" | b"is_valid" | b"stations" | b"reversed" => whole(name, words, answer),
        b"locate" | b"point_at" | b"fraction" | b"ction_at" => along(name, words, answer),
        b"st_point" => nearest(words, answer),
        b"le_count" => resampled(words, answer),
        b"nterline" => middle(words, answer),
        _ => Outcome::NotAsked,
    }
}
