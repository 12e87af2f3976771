// A new signal: its lamps, given or standard, its row of the tables, and the tests of what is stored of it.
#![tactic(auto)]

ghost use Rattle.std.specs.Prelude.{◌≡◌, [], ◌∷◌, ◌≤◌, ◌<◌, Float, get_or};
ghost use Rattle.std.specs.Float.{nan};
ghost use Rattle.rows.specs.Lists.{or_default};
ghost use Rattle.centerline.specs.Line.{points_of};
ghost use Rattle.place.specs.Values.{Roomy};
ghost use Rattle.edit.specs.Light.{default_height};
ghost use Rattle.edit.specs.Request.{height_given, lamp_count};
ghost use Rattle.signal_row.specs.Row.{no_bulb, bulb_place, BulbMade, BulbGiven, LampsRead, StandardMade, BulbsRead, BulbWords, RowMade, bulbs_on_map};

use centerline::Line;
use edit::{Height, Look, SignalBulb, SignalRequest};
use geometry::Point3;
use geometry::vector::Vector;
use lighting::housings::fraction_of;
use map::{BulbArrow, BulbColor, SignalKind};

// The words of a signal's row, and its coordinates after the housing: its height and its lamps' positions.
#[derive(Drop)]
pub struct SignalRow {
    pub words: [u64; 13],
    pub more: [f64; 13],
}

// The lamps that are stored: as many as are counted, in the room for four. More than four are refused.
#[derive(Clone, Copy)]
pub struct Bulbs {
    pub count: u64,
    pub bulbs: [SignalBulb; 4],
}

// The numbers of a lamp's colour and arrow.
#[derive(Drop)]
pub struct BulbNumbers {
    pub color: u64,
    pub arrow: u64,
}

// The standard height is half a metre.
#[tactic(auto, using(crate::proofs::RowLaws::height_standard, crate::proofs::RowLaws::height_given_lem))]
pub fn height_of(h: Height) -> f64
    ensures { result ≡ or_default (height_given h) default_height }
{
    let Height::Metres(x) = h else {
        return 0.5;
    };
    x
}

// The middle of the housing's part i of n, raised by half the height.
#[tactic(auto, using(centerline::proofs::Made::whole_fits, crate::proofs::RowLaws::place_none, crate::proofs::RowLaws::place_at_lem))]
fn bulb_place(housing: Line, height: f64, i: usize, n: usize) -> Point3
    requires { Roomy housing × (i ≤ 4) × (n ≤ 4) }
    ensures { result ≡ bulb_place (points_of housing) height i n }
{
    let t = (i as f64 + 0.5) / n as f64;
    let Some(p) = fraction_of(housing, t) else {
        return Point3 {
            x: 0.0,
            y: 0.0,
            z: 0.0 + height / 2.0,
        };
    };
    Point3 {
        x: p.x,
        y: p.y,
        z: p.z + height / 2.0,
    }
}

fn standard_bulb(housing: Line, height: f64, i: usize, n: usize, color: BulbColor) -> SignalBulb
    requires { Roomy housing × (i ≤ 4) × (n ≤ 4) }
    ensures { BulbMade (points_of housing) height i n color result }
{
    SignalBulb {
        position: bulb_place(housing, height, i, n),
        color,
        arrow: BulbArrow::NoArrow,
    }
}

fn no_bulb() -> SignalBulb
    ensures { result ≡ no_bulb }
{
    SignalBulb {
        position: Point3 {
            x: 0.0,
            y: 0.0,
            z: 0.0,
        },
        color: BulbColor::Red,
        arrow: BulbArrow::NoArrow,
    }
}

// Green, yellow and red, evenly along the housing; a pedestrian's light has no yellow.
#[tactic(auto, using(crate::proofs::RowLaws::vehicle_bulbs, crate::proofs::RowLaws::pedestrian_bulbs))]
fn standard_bulbs(kind: SignalKind, housing: Line, height: f64) -> Bulbs
    requires { Roomy housing }
    ensures { StandardMade kind (points_of housing) height result }
{
    let none = no_bulb();
    match kind {
        SignalKind::Vehicle => {
            let a = standard_bulb(housing, height, 0, 3, BulbColor::Green);
            let b = standard_bulb(housing, height, 1, 3, BulbColor::Yellow);
            let c = standard_bulb(housing, height, 2, 3, BulbColor::Red);
            Bulbs {
                count: 3,
                bulbs: [a, b, c, none],
            }
        }
        SignalKind::Pedestrian => {
            let a = standard_bulb(housing, height, 0, 2, BulbColor::Green);
            let b = standard_bulb(housing, height, 1, 2, BulbColor::Red);
            Bulbs {
                count: 2,
                bulbs: [a, b, none, none],
            }
        }
    }
}

// A coordinate of the lamps; one that is missing is no number.
#[tactic(auto, using(crate::proofs::RowLaws::missing))]
fn lamp_coord(lamps: &[f64], i: usize) -> f64
    ensures { result ≡ get_or lamps.now i nan }
{
    if i < lamps.len() {
        return lamps[i];
    }
    0.0 / 0.0
}

// Lamp i of those that are given, with its look.
fn given_bulb(lamps: &[f64], i: usize, look: Look) -> SignalBulb
    requires { i < 4 }
    ensures { BulbGiven lamps.now i look result }
{
    let color = look.color;
    let arrow = look.arrow;
    SignalBulb {
        position: Point3 {
            x: lamp_coord(lamps, i * 3),
            y: lamp_coord(lamps, i * 3 + 1),
            z: lamp_coord(lamps, i * 3 + 2),
        },
        color,
        arrow,
    }
}

// How many lamps these are the coordinates of: one that lacks a coordinate counts.
#[tactic(auto, using(crate::proofs::RowLaws::count_whole, crate::proofs::RowLaws::count_more))]
pub fn lamp_count(lamps: &[f64]) -> u64
    ensures { result ≡ lamp_count lamps.now }
{
    let n = lamps.len() as u64;
    if n % 3 == 0 { n / 3 } else { n / 3 + 1 }
}

fn given_bulbs(lamps: &[f64], looks: [Look; 4]) -> Bulbs
    ensures { LampsRead lamps.now looks result }
{
    let l0 = looks[0];
    let l1 = looks[1];
    let l2 = looks[2];
    let l3 = looks[3];
    let b0 = given_bulb(lamps, 0, l0);
    let b1 = given_bulb(lamps, 1, l1);
    let b2 = given_bulb(lamps, 2, l2);
    let b3 = given_bulb(lamps, 3, l3);
    Bulbs {
        count: lamp_count(lamps),
        bulbs: [b0, b1, b2, b3],
    }
}

// The lamps as given, or the standard ones.
#[tactic(auto, using(crate::proofs::RowLaws::bulbs_given, crate::proofs::RowLaws::bulbs_standard))]
pub fn bulbs_of(q: SignalRequest, housing: Line, lamps: &[f64]) -> Bulbs
    requires { Roomy housing }
    ensures { BulbsRead q (points_of housing) lamps.now result }
{
    let asked = q.lamps;
    if asked.given {
        return given_bulbs(lamps, asked.looks);
    }
    standard_bulbs(q.kind, housing, height_of(q.height))
}

fn bulb_numbers(b: SignalBulb) -> BulbNumbers
    ensures { BulbWords b result }
{
    BulbNumbers {
        color: b.color.number(),
        arrow: b.arrow.number(),
    }
}

// The coordinates after the housing: the height, and four positions.
fn row_more(height: f64, p: Point3, s: Point3, t: Point3, u: Point3) -> [f64; 13]
    ensures { result ≡ height ∷ p.x ∷ p.y ∷ p.z ∷ s.x ∷ s.y ∷ s.z ∷ t.x ∷ t.y ∷ t.z ∷ u.x ∷ u.y ∷ u.z ∷ [] }
{
    [
        height, p.x, p.y, p.z, s.x, s.y, s.z, t.x, t.y, t.z, u.x, u.y, u.z,
    ]
}

// The row of a signal whose housing has this many points, in the form that is pushed. Room past the lamps' count has no meaning.
pub fn signal_row(number: u64, q: SignalRequest, points: usize, bulbs: Bulbs) -> SignalRow
    requires { bulbs.count ≤ 4 }
    ensures { RowMade number q points bulbs result }
{
    let all = bulbs.bulbs;
    let h = q.height;
    let kind = q.kind;
    let b0 = all[0];
    let b1 = all[1];
    let b2 = all[2];
    let b3 = all[3];
    let p = b0.position;
    let s = b1.position;
    let t = b2.position;
    let u = b3.position;
    let a = bulb_numbers(b0);
    let b = bulb_numbers(b1);
    let c = bulb_numbers(b2);
    let d = bulb_numbers(b3);
    let k = kind.number();
    let n = points as u64;
    SignalRow {
        words: [
            number,
            k,
            n,
            1,
            bulbs.count,
            a.color,
            a.arrow,
            b.color,
            b.arrow,
            c.color,
            c.arrow,
            d.color,
            d.arrow,
        ],
        more: row_more(height_of(h), p, s, t, u),
    }
}

// Whether every lamp that is stored is on the map.
pub fn bulbs_on_map(b: Bulbs) -> bool
    requires { b.count ≤ 4 }
    ensures { result ≡ bulbs_on_map b }
{
    let all = b.bulbs;
    let n = b.count;
    for i in 0..4 {
        if n <= i as u64 {
            return true;
        }
        let lamp = all[i];
        let p = lamp.position;
        if !p.on_map() {
            return false;
        }
    }
    true
}
