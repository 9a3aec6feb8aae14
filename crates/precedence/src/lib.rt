// How far a grant stands against those that outrank it, so that a panel can show it and nobody acts on a grant that a higher one overrides.
// Nothing is refused.
#![tactic(auto)]

pub mod overriding;

// How far a grant decides where other grants touch the same door and quarter: for all its staff, for some, or for none.
#[derive(Clone, Copy)]
pub enum Precedence {
    Whole,
    Partial,
    None,
}
