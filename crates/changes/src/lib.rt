// Change sets, folds and the tally.
#![tactic(auto)]

ghost use Rattle.std.specs.Prelude.{◌≡◌, ◌<◌};
ghost use Rattle.changes.specs.Layout.{from_of};
ghost use Rattle.changes.specs.Kinds.{list_number, code_number};

pub mod layout;
pub mod lists;

// How many entries a running fold has as created, modified and deleted.
#[derive(Clone, Copy)]
pub struct Tally {
    pub created: u64,
    pub modified: u64,
    pub deleted: u64,
}

// The lists of a change set, in the order in which they stand in its table.
#[derive(Clone, Copy)]
pub enum SetList {
    Created,
    Modified,
    Deleted,
}

impl SetList {
    // The word with the list's count.
    pub fn word(self) -> usize
        ensures number { result ≡ list_number self }
        ensures below { result < 3 }
    {
        self as usize
    }

    // The word at which the list begins.
    pub fn begin(self) -> usize
        ensures from { result ≡ from_of (list_number self) }
        ensures below { list_number self < 3 }
    {
        layout::LISTS + self.word() * layout::LIST
    }
}

// What a warning warns of.
#[derive(Clone, Copy)]
pub enum WarningCode {
    PlacementClamped = 1,
    OrphanRule = 2,
    GeometrySynthesized = 3,
    RuleReplaced = 4,
}

impl WarningCode {
    // The code in a table and a file.
    pub fn number(self) -> u64
        ensures { result ≡ code_number self }
    {
        self as u64
    }
}
