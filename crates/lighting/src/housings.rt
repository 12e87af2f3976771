// Where the signal goes: as given, or made up above the line.
ghost use Rattle.std.specs.Prelude.{◌≡◌, true, cond, [], ◌∷◌, ◌/◌, ◌≤◌, length, None, Some};
ghost use Rattle.refusal.specs.Answer.{refused_as};
ghost use Rattle.geometry.specs.Polyline.{point_at_fraction, direction_at, nearest_point};
ghost use Rattle.centerline.specs.Line.{points_of};
ghost use Rattle.place.specs.Values.{maybe_line, Roomy};
ghost use Rattle.edit.specs.Light.{housing_at, station_of};
ghost use Rattle.lighting.specs.Housing.{HousingRead, housing_on};

use crate::Housing;
use centerline::Line;
use geometry::point::{flat, perp};
use geometry::vector::Vector;
use geometry::{NearestPoint, Point2, Point3};
use place::lines::copied;
use place::section::nearest_of;
use place::{CrossSection, MaybeLine};
use placing::stop_line::across;
use refusal::{PlaceFault, Refusal};

const WIDTH: f64 = 1.2;

const ELEVATION: f64 = 5.0;

// The point at a fraction of a line.
#[tactic(auto, using(place::proofs::LineLaws::part_long))]
pub fn fraction_of(line: Line, t: f64) -> Option<Point3>
    requires { Roomy line }
    ensures { result ≡ point_at_fraction (points_of line) t }
{
    let coords = line.coords;
    let e = line.count * 3;
    polyline::locate::point_at_fraction(&coords[..e], t)
}

// Which way a line runs at a station.
#[tactic(auto, using(place::proofs::LineLaws::part_long))]
fn direction_of(line: Line, s: f64) -> Option<Point2>
    requires { Roomy line }
    ensures { result ≡ direction_at (points_of line) s }
{
    let coords = line.coords;
    let e = line.count * 3;
    polyline::direction::direction_at(&coords[..e], s)
}

#[tactic(auto, using(crate::proofs::HousingLaws::station_none, crate::proofs::HousingLaws::station_is))]
fn station_of(n: Option<NearestPoint>) -> f64
    ensures { result ≡ station_of n }
{
    let Some(p) = n else {
        return 0.0;
    };
    p.station
}

// Which way a line runs where it is nearest to a point.
#[tactic(auto, using(crate::proofs::HousingLaws::near_is))]
fn direction_near(line: Line, p: Point2) -> Option<Point2>
    requires { Roomy line }
    ensures { result ≡ direction_at (points_of line) (station_of (nearest_point (points_of line) p)) }
{
    let s = station_of(nearest_of(line, p));
    direction_of(line, s)
}

// From left to right as the traffic sees it.
#[tactic(auto, unfolding(edit::specs::Light::housing_at))]
fn housing_at(mid: Point3, dir: Point2) -> CrossSection
    ensures { result.left ∷ result.right ∷ [] ≡ housing_at mid dir }
{
    let side = perp(dir).scale(WIDTH / 2.0);
    let z = mid.z + ELEVATION;
    let left = Point3 {
        x: mid.x + side.x,
        y: mid.y + side.y,
        z,
    };
    let right = Point3 {
        x: mid.x - side.x,
        y: mid.y - side.y,
        z,
    };
    CrossSection { left, right }
}

fn no_housing(r: Refusal) -> Housing
    ensures { HousingRead (refused_as r) result }
{
    Housing {
        checked: Err(r),
        line: centerline::empty(),
        synthesized: false,
    }
}

// Above the middle of the line, across the first lane.
#[tactic(auto, using(crate::proofs::HousingLaws::no_middle, crate::proofs::HousingLaws::center_missing, crate::proofs::HousingLaws::no_direction))]
fn synthesize(center: MaybeLine, anchor: Line) -> Housing
    requires { Roomy center.line × Roomy anchor }
    ensures { HousingRead (housing_on (maybe_line center) (points_of anchor) None) result }
{
    let Some(mid) = fraction_of(anchor, 0.5) else {
        return no_housing(Refusal::NoPlace(PlaceFault::EmptyStopLine));
    };
    if !center.there {
        return no_housing(Refusal::NoPlace(PlaceFault::NoLaneGeometry));
    }
    let line = center.line;
    let Some(dir) = direction_near(line, flat(mid)) else {
        return no_housing(Refusal::NoPlace(PlaceFault::DegenerateCenterline));
    };
    Housing {
        checked: Ok(()),
        line: across(housing_at(mid, dir)),
        synthesized: true,
    }
}

// The housing as given, or made up.
#[tactic(auto, using(crate::proofs::HousingLaws::not_given))]
pub fn housing_for(center: MaybeLine, anchor: Line, given: bool, cs: &[f64]) -> Housing
    requires { Roomy center.line × Roomy anchor × (given ≡ true → length cs.now / 3 ≤ 64) }
    ensures { HousingRead (housing_on (maybe_line center) (points_of anchor) (cond given (Some cs.now) None)) result }
{
    if given {
        return Housing {
            checked: Ok(()),
            line: copied(cs),
            synthesized: false,
        };
    }
    synthesize(center, anchor)
}
