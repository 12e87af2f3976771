// The edits' arguments as numbers, for callers in other languages and for calls that are held in memory. A number that is
// no case of its enum is told apart by the tests here; the readers answer a case for every number.
#![tactic(auto)]

ghost use Rattle.std.specs.Prelude.{◌≡◌, not, ◌&&◌, ◌||◌, [], ◌∷◌, ◌<◌, eqb, ltb, length, get_or};
ghost use Rattle.boundary.specs.Numbers.{placement_of, stop_rule_of, choice_of, signal_kind_of, bulb_color_of, bulb_arrow_of, number_if, height_of, flag, look_at, request_of, look_cases, lamp_cases, signal_cases};

use edit::{Height, Lamps, Look, SignalRequest, StopLineChoice, StopRule};
use map::{BulbArrow, BulbColor, SignalKind};
use place::Placement;

pub fn placement_of(n: u64, x: f64) -> Placement
    ensures { result ≡ placement_of n x }
{
    match n {
        0 => Placement::AtLaneEnd(x),
        1 => Placement::AtStation(x),
        _ => Placement::Given,
    }
}

pub fn stop_rule_of(n: u64) -> StopRule
    ensures { result ≡ stop_rule_of n }
{
    match n {
        0 => StopRule::StopSign,
        1 => StopRule::Marking,
        _ => StopRule::NoRule,
    }
}

pub fn choice_of(n: u64, line: u64, how: Placement) -> StopLineChoice
    ensures { result ≡ choice_of n line how }
{
    match n {
        0 => StopLineChoice::Automatic,
        1 => StopLineChoice::Existing(line),
        2 => StopLineChoice::New(how),
        _ => StopLineChoice::NoLine,
    }
}

pub fn signal_kind_of(n: u64) -> SignalKind
    ensures { result ≡ signal_kind_of n }
{
    match n {
        0 => SignalKind::Vehicle,
        _ => SignalKind::Pedestrian,
    }
}

pub fn bulb_color_of(n: u64) -> BulbColor
    ensures { result ≡ bulb_color_of n }
{
    match n {
        0 => BulbColor::Red,
        1 => BulbColor::Yellow,
        2 => BulbColor::Green,
        _ => BulbColor::White,
    }
}

pub fn bulb_arrow_of(n: u64) -> BulbArrow
    ensures { result ≡ bulb_arrow_of n }
{
    match n {
        0 => BulbArrow::NoArrow,
        1 => BulbArrow::Up,
        2 => BulbArrow::Down,
        3 => BulbArrow::Left,
        4 => BulbArrow::Right,
        5 => BulbArrow::UpLeft,
        6 => BulbArrow::UpRight,
        7 => BulbArrow::DownLeft,
        _ => BulbArrow::DownRight,
    }
}

// How lamp i of four looks.
#[tactic(auto, unfolding(crate::specs::Numbers::look_at))]
fn look_at(ns: &[u64], i: usize) -> Look
    requires { (length ns.now ≡ 17) × (i < 4) }
    ensures { result ≡ look_at ns.now i }
{
    let n = 7 + i * 2;
    Look {
        color: bulb_color_of(ns[n]),
        arrow: bulb_arrow_of(ns[n + 1]),
    }
}

pub fn number_if(given: bool, n: u64) -> Option<u64>
    ensures { result ≡ number_if given n }
{
    if given { Some(n) } else { None }
}

pub fn height_of(given: bool, x: f64) -> Height
    ensures { result ≡ height_of given x }
{
    if given {
        Height::Metres(x)
    } else {
        Height::Standard
    }
}

// A light's lamps, but their positions.
fn lamps_of(ns: &[u64]) -> Lamps
    requires { length ns.now ≡ 17 }
    ensures { result ≡ record { given = flag (get_or ns.now 6 0); looks = look_at ns.now 0 ∷ look_at ns.now 1 ∷ look_at ns.now 2 ∷ look_at ns.now 3 ∷ [] } }
{
    Lamps {
        given: ns[6] != 0,
        looks: [
            look_at(ns, 0),
            look_at(ns, 1),
            look_at(ns, 2),
            look_at(ns, 3),
        ],
    }
}

// A light's request: its seventeen numbers, the offset or station of a new line, and the height.
#[tactic(auto, unfolding(crate::specs::Numbers::request_of))]
pub fn request_of(ns: &[u64], measure: f64, height: f64) -> SignalRequest
    requires { length ns.now ≡ 17 }
    ensures { result ≡ request_of ns.now measure height }
{
    let how = placement_of(ns[2], measure);
    let lamps = lamps_of(ns);
    SignalRequest {
        choice: choice_of(ns[0], ns[1], how),
        housing_given: ns[3] != 0,
        height: height_of(ns[4] != 0, height),
        kind: signal_kind_of(ns[5]),
        lamps,
        group: number_if(ns[15] != 0, ns[16]),
    }
}

// Whether the colour and the arrow of lamp i are cases.
#[tactic(auto, unfolding(crate::specs::Numbers::look_cases))]
fn look_cases(ns: &[u64], i: usize) -> bool
    requires { (length ns.now ≡ 17) × (i < 4) }
    ensures { result ≡ look_cases ns.now i }
{
    let n = 7 + i * 2;
    ns[n] < 4 && ns[n + 1] < 9
}

// The same of n lamps, where they are given and lamp i is one of them.
#[tactic(auto, unfolding(crate::specs::Numbers::lamp_cases))]
fn lamp_cases(ns: &[u64], n: u64, i: usize) -> bool
    requires { (length ns.now ≡ 17) × (i < 4) }
    ensures { result ≡ lamp_cases ns.now n i }
{
    ns[6] == 0 || n <= i as u64 || look_cases(ns, i)
}

// The same of all lamps.
fn all_lamp_cases(ns: &[u64], n: u64) -> bool
    requires { length ns.now ≡ 17 }
    ensures { result ≡ (lamp_cases ns.now n 0 && lamp_cases ns.now n 1 && lamp_cases ns.now n 2 && lamp_cases ns.now n 3) }
{
    lamp_cases(ns, n, 0) && lamp_cases(ns, n, 1) && lamp_cases(ns, n, 2) && lamp_cases(ns, n, 3)
}

// Whether the placement of a light's line is a case, where the line is new.
fn placement_case(choice: u64, placement: u64) -> bool
    ensures { result ≡ (not (eqb choice 2) || ltb placement 3) }
{
    choice != 2 || placement < 3
}

// Whether each number of a light's request that is read and stands for an enum is a case of it, for n lamps.
#[tactic(auto, unfolding(crate::specs::Numbers::signal_cases))]
pub fn signal_cases(ns: &[u64], n: u64) -> bool
    requires { length ns.now ≡ 17 }
    ensures { result ≡ signal_cases ns.now n }
{
    ns[0] < 4 && placement_case(ns[0], ns[2]) && ns[5] < 2 && all_lamp_cases(ns, n)
}
