// The cross-section: the outermost points of the lanes' boundaries.
ghost use Rattle.std.specs.Prelude.{◌≡◌, ◌<◌, get_or, Some};
ghost use Rattle.geometry.specs.Polyline.{polyline_of, nearest_point};
ghost use Rattle.centerline.specs.Line.{points_of};
ghost use Rattle.map.specs.Lookup.{oriented};
ghost use Rattle.map.specs.Tables.{map_of};
ghost use Rattle.place.specs.Place.{widened, with_lane, with_lanes, section};
ghost use Rattle.place.specs.Readable.{Readable};
ghost use Rattle.place.specs.Steps.{outer_left, outer_right, no_ends, with_sides, section_on};
ghost use Rattle.place.specs.Values.{Roomy, side_of, side_read, sides_of, no_side, side_nearest, nearest_in, end_of, maybe_end, ends_of, walked, section_answer};

use crate::{
    CrossSection, EndName, LaneSide, SectionEnd, SectionEnds, SectionNames, Side, SideNearest,
};
use centerline::Line;
use geometry::point::{dot, flat, perp};
use geometry::vector::Vector;
use geometry::{NearestPoint, Point2, Point3};
use map::{LaneRow, lookup};
use refusal::{PlaceFault, Refusal};
use store::Kind;

// The end that lies farther to the left; on equal values the earlier one stays.
#[tactic(auto, unfolding(crate::specs::Place::outer))]
fn outer_left(best: Option<SectionEnd>, e: SectionEnd) -> Option<SectionEnd>
    ensures { maybe_end result ≡ outer_left (maybe_end best) (end_of e) }
{
    let Some(b) = best else {
        return Some(e);
    };
    if b.lateral < e.lateral {
        return Some(e);
    }
    Some(b)
}

// The one that lies farther to the right.
#[tactic(auto, unfolding(crate::specs::Place::outer))]
fn outer_right(best: Option<SectionEnd>, e: SectionEnd) -> Option<SectionEnd>
    ensures { maybe_end result ≡ outer_right (maybe_end best) (end_of e) }
{
    let Some(b) = best else {
        return Some(e);
    };
    if e.lateral < b.lateral {
        return Some(e);
    }
    Some(b)
}

// The ends, with a boundary's nearest point taken in.
#[tactic(auto, unfolding(crate::specs::Place::widened))]
fn widened(
    p: Point3,
    normal: Point2,
    name: EndName,
    n: NearestPoint,
    ends: SectionEnds,
) -> SectionEnds
    ensures { ends_of result ≡ widened p normal name (Some n) (ends_of ends) }
{
    let q = n.point;
    let e = SectionEnd {
        lateral: dot(normal, flat(q).sub(flat(p))),
        point: q,
        name,
    };
    SectionEnds {
        left: outer_left(ends.left, e),
        right: outer_right(ends.right, e),
    }
}

// The point of a line that is nearest to a point of the plane.
#[tactic(auto, using(crate::proofs::SectionLaws::nearest_is))]
pub fn nearest_of(line: Line, p: Point2) -> Option<NearestPoint>
    requires { Roomy line }
    ensures { result ≡ nearest_point (points_of line) p }
{
    let coords = line.coords;
    let e = line.count * 3;
    polyline::nearest::nearest_point(&coords[..e], p)
}

// The same of a boundary along the lane. Only one that runs against the lane is copied.
#[tactic(auto, using(crate::proofs::LineLaws::nearest_none, crate::proofs::LineLaws::boundary_word, crate::proofs::LineLaws::boundary_part, crate::proofs::LineLaws::reversed_room, crate::proofs::LineLaws::nearest_reversed, crate::proofs::LineLaws::nearest_along))]
fn nearest_side(
    words: &[u64],
    coords: &[f64],
    number: u64,
    reversed: bool,
    p: Point2,
) -> SideNearest
    requires { Readable words.now coords.now }
    ensures { side_nearest result ≡ nearest_in (oriented (map_of words.now coords.now) (side_of number reversed)) p }
{
    let Some(i) = lookup::find(words, Kind::Boundary, number) else {
        return SideNearest {
            there: false,
            nearest: None,
        };
    };
    let n = rows::index(lookup::word(words, Kind::Boundary, i, 1));
    let cs = lookup::points(coords, Kind::Boundary, i, 0, n);
    if reversed {
        let line = centerline::reversed::reversed(cs);
        return SideNearest {
            there: true,
            nearest: nearest_of(line, p),
        };
    }
    SideNearest {
        there: true,
        nearest: polyline::nearest::nearest_point(cs, p),
    }
}

fn side_of(row: LaneRow, k: usize) -> Side
    requires { k < 2 }
    ensures { side_read result ≡ get_or (sides_of row) k no_side }
{
    if k == 0 {
        return Side {
            side: LaneSide::Left,
            number: row.left,
            reversed: row.left_reversed,
        };
    }
    Side {
        side: LaneSide::Right,
        number: row.right,
        reversed: row.right_reversed,
    }
}

// The ends after both sides of a lane. A boundary without points is passed over.
#[tactic(auto, using(crate::proofs::SectionLaws::siding_end))]
fn with_sides(
    words: &[u64],
    coords: &[f64],
    p: Point3,
    normal: Point2,
    lane: u64,
    row: LaneRow,
    start: SectionEnds,
) -> Option<SectionEnds>
    requires { Readable words.now coords.now }
    ensures { walked result ≡ with_sides (map_of words.now coords.now) p normal lane (sides_of row) (ends_of start) }
{
    let mut ends = start;
    for k in 0..2 {
        let s = side_of(row, k);
        let b = nearest_side(words, coords, s.number, s.reversed, flat(p));
        if !b.there {
            return None;
        }
        let Some(n) = b.nearest else {
            continue;
        };
        let name = EndName { lane, side: s.side };
        ends = widened(p, normal, name, n, ends);
    }
    Some(ends)
}

fn with_lane(
    words: &[u64],
    coords: &[f64],
    p: Point3,
    normal: Point2,
    lane: u64,
    ends: SectionEnds,
) -> Option<SectionEnds>
    requires { Readable words.now coords.now }
    ensures { walked result ≡ with_lane (map_of words.now coords.now) p normal lane (ends_of ends) }
{
    let i = lookup::find(words, Kind::Lane, lane)?;
    with_sides(words, coords, p, normal, lane, lookup::lane(words, i), ends)
}

fn with_lanes(
    words: &[u64],
    coords: &[f64],
    p: Point3,
    normal: Point2,
    lanes: &[u64],
) -> Option<SectionEnds>
    requires { Readable words.now coords.now }
    ensures { walked result ≡ with_lanes (map_of words.now coords.now) p normal lanes.now no_ends }
{
    let mut ends = SectionEnds {
        left: None,
        right: None,
    };
    for lane in lanes {
        ends = with_lane(words, coords, p, normal, *lane, ends)?;
    }
    Some(ends)
}

// The ends must be more than 1e-3 apart.
#[tactic(auto, unfolding(crate::specs::Place::section))]
fn section(ends: SectionEnds) -> Result<(CrossSection, SectionNames), Refusal>
    ensures { section_answer result ≡ section (maybe_end ends.left) (maybe_end ends.right) }
{
    let Some(a) = ends.left else {
        return Err(Refusal::NoPlace(PlaceFault::NoSection));
    };
    let Some(b) = ends.right else {
        return Err(Refusal::NoPlace(PlaceFault::NoSection));
    };
    if a.lateral - b.lateral > 1e-3 {
        let left = a.point;
        let right = b.point;
        let one = a.name;
        let two = b.name;
        let names = SectionNames {
            left: one,
            right: two,
        };
        let points = CrossSection { left, right };
        return Ok((points, names));
    }
    Err(Refusal::NoPlace(PlaceFault::NoSection))
}

// The cross-section at a station of a centreline.
#[tactic(auto, unfolding(crate::specs::Steps::section_on))]
pub fn cross_section(
    words: &[u64],
    coords: &[f64],
    center: &[f64],
    station: f64,
    lanes: &[u64],
) -> Result<(CrossSection, SectionNames), Refusal>
    requires { Readable words.now coords.now }
    ensures { section_answer result ≡ section_on (map_of words.now coords.now) (polyline_of center.now) station lanes.now }
{
    let Some(p) = polyline::locate::point_at(center, station) else {
        return Err(Refusal::NoPlace(PlaceFault::Empty));
    };
    let Some(d) = polyline::direction::direction_at(center, station) else {
        return Err(Refusal::NoPlace(PlaceFault::DegenerateCenterline));
    };
    let Some(e) = with_lanes(words, coords, p, perp(d), lanes) else {
        return Err(Refusal::NoPlace(PlaceFault::MissingBoundary));
    };
    section(e)
}
