// The map's records, and the tables that hold them.
#![tactic(auto)]

pub mod lookup;
pub mod update;

ghost use Rattle.std.specs.Prelude.{◌≡◌};
ghost use Rattle.map.specs.Record.{signal_kind_number, bulb_color_number, bulb_arrow_number};

#[derive(Clone, Copy)]
pub enum SignalKind {
    Vehicle,
    Pedestrian,
}

#[derive(Clone, Copy)]
pub enum BulbColor {
    Red,
    Yellow,
    Green,
    White,
}

#[derive(Clone, Copy)]
pub enum BulbArrow {
    NoArrow,
    Up,
    Down,
    Left,
    Right,
    UpLeft,
    UpRight,
    DownLeft,
    DownRight,
}

// A lane's row of words.
#[derive(Clone, Copy)]
pub struct LaneRow {
    pub number: u64,
    pub kind: u64,
    pub left: u64,
    pub left_reversed: bool,
    pub right: u64,
    pub right_reversed: bool,
    // The points of its own centreline, where it has one.
    pub centerline: Option<u64>,
}

// A rule's row of words, but its lists. A flag and what it tells of stay apart: a marking has its
// line without the flag, and every word is told as it stands.
#[derive(Drop)]
pub struct RuleHead {
    pub number: u64,
    pub kind: u64,
    pub value: u64,
    pub has_line: bool,
    pub line: u64,
    pub has_shape: bool,
    pub points: u64,
}

// What a new rule is, besides its lanes and signals.
#[derive(Clone, Copy)]
pub enum NewRule {
    Light { line: Option<u64> },
    // A sign of a type, which is not drawn.
    Sign { value: u64, line: Option<u64> },
    Marking { line: u64 },
}

// A list of a rule.
#[derive(Clone, Copy)]
pub struct Entries {
    pub count: usize,
    pub entries: [u64; 16],
}

// The numbers that the tables and files hold.
impl SignalKind {
    pub fn number(self) -> u64
        ensures { result ≡ signal_kind_number self }
    {
        self as u64
    }
}

impl BulbColor {
    pub fn number(self) -> u64
        ensures { result ≡ bulb_color_number self }
    {
        self as u64
    }
}

impl BulbArrow {
    pub fn number(self) -> u64
        ensures { result ≡ bulb_arrow_number self }
    {
        self as u64
    }
}
