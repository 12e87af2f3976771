// Why a call was refused.
#![tactic(auto)]

ghost use Rattle.std.specs.Prelude.{◌≡◌, get_or};
ghost use Rattle.refusal.specs.Refusal.{refusal_number, refusal_details};

// What is not there. The numbers are a change set's.
#[derive(Clone, Copy)]
pub enum RecordKind {
    Lane = 1,
    StopLine = 5,
    Signal = 6,
    Crosswalk = 7,
    Rule = 8,
}

// Which list names a record twice.
#[derive(Clone, Copy)]
pub enum Listed {
    Lanes = 1,
    Crosswalks = 2,
    Lines = 3,
}

#[derive(Clone, Copy)]
pub enum Measure {
    Height = 1,
    Offset = 2,
    Station = 3,
}

// What is wrong with the points: too short is a length not above 1e-9.
#[derive(Clone, Copy)]
pub enum ShapeFault {
    NotFinite = 1,
    TooShort = 2,
}

#[derive(Clone, Copy)]
pub enum PlaceFault {
    NoLaneGeometry = 1,
    Empty = 2,
    DegenerateCenterline = 3,
    MissingBoundary = 4,
    NoSection = 5,
    EmptyStopLine = 6,
}

// Why a light cannot join the group.
#[derive(Clone, Copy)]
pub enum GroupFault {
    ControlsCrosswalks = 1,
    NotALight = 2,
    UsesAnotherLine = 3,
    HasALine = 4,
}

// Why a rule cannot have the links, in the order of its tests.
#[derive(Clone, Copy)]
pub enum LinkFault {
    NoSignals = 1,
    MixedSignals = 2,
    PedestriansWithLanes = 3,
    VehiclesWithCrosswalks = 4,
    SeveralLines = 5,
    CrossingWithCrosswalks = 6,
    MarkingWithOthers = 7,
    OtherRule = 8,
}

// The fourteen refusals, in the order of their numbers.
#[derive(Clone, Copy)]
pub enum Refusal {
    NoLanes,
    Unknown(RecordKind, u64),
    ListedTwice(Listed),
    BadMeasure(Measure),
    BadShape(ShapeFault),
    NoPlace(PlaceFault),
    WrongGroup(GroupFault),
    WrongLink(LinkFault),
    OffTheMap,
    Full,
    NumbersSpent,
    BadMap,
    BadSet,
    ShortBuffer,
}

impl Refusal {
    // The refusal's number.
    pub fn number(self) -> u64
        ensures { result ≡ refusal_number self }
    {
        match self {
            Refusal::NoLanes => 1,
            Refusal::Unknown(_, _) => 2,
            Refusal::ListedTwice(_) => 3,
            Refusal::BadMeasure(_) => 4,
            Refusal::BadShape(_) => 5,
            Refusal::NoPlace(_) => 6,
            Refusal::WrongGroup(_) => 7,
            Refusal::WrongLink(_) => 8,
            Refusal::OffTheMap => 9,
            Refusal::Full => 10,
            Refusal::NumbersSpent => 11,
            Refusal::BadMap => 12,
            Refusal::BadSet => 13,
            Refusal::ShortBuffer => 14,
        }
    }

    // The first detail, 0 where there is none.
    pub fn detail(self) -> u64
        ensures { result ≡ get_or (refusal_details self) 0 0 }
    {
        match self {
            Refusal::Unknown(kind, _) => kind as u64,
            Refusal::ListedTwice(list) => list as u64,
            Refusal::BadMeasure(measure) => measure as u64,
            Refusal::BadShape(fault) => fault as u64,
            Refusal::NoPlace(fault) => fault as u64,
            Refusal::WrongGroup(fault) => fault as u64,
            Refusal::WrongLink(fault) => fault as u64,
            _ => 0,
        }
    }

    // The second detail: the number of an unknown record.
    pub fn second(self) -> u64
        ensures { result ≡ get_or (refusal_details self) 1 0 }
    {
        match self {
            Refusal::Unknown(_, number) => number,
            _ => 0,
        }
    }
}
