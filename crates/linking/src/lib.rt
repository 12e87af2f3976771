// The checks and the plan of `set_regulatory_links`, which read only.
#![tactic(auto)]

pub mod kinds; // kinds.rt: a light's signals
pub mod light; // light.rt: what a light can be linked to
pub mod lists; // lists.rt: the lists of links
pub mod sort; // sort.rt: a list in rising order

// A list by value.
#[derive(Drop)]
pub struct Sorted {
    pub count: usize,
    pub entries: [u64; 64],
}
