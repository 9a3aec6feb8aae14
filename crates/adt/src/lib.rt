// The alternating digital tree over a pool of words (document 01, "The tree"; source 001).
// A walk that meets a cause of fault 9 stops there and says so; nothing is written before it is done.
#![tactic(auto)]

ghost use Rattle.std.specs.Prelude.{◌≡◌};
ghost use Rattle.model.specs.declared.Fault.TheVariants.{BrokenLinks};

use model::Fault;

pub mod insert;
pub mod node;
pub mod predicates;
pub mod remove;
pub mod search;

// A walk met a cause of fault 9.
#[derive(Clone, Copy)]
pub struct Broken;

impl From<Broken> for Fault {
    ghost from_gives = { λ _ fault. fault ≡ BrokenLinks };

    fn from(_broken: Broken) -> Fault {
        Fault::BrokenLinks
    }
}
