// The rule of `set_regulatory_links`, for links in rising order: its checks, whether it changes, and its row.
#![tactic(auto)]

pub mod check; // check.rt: what the rule can be linked to, and room for it
pub mod same; // same.rt: whether the links are those that it has
pub mod put; // put.rt: the rule's row
