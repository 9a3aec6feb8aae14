// Document 01's number of a kind, and back.
ghost use Rattle.std.specs.Prelude.{◌≡◌, ◌<◌};
ghost use Rattle.model.specs.Kind.{kind_of, kind_number};

use crate::Kind;

impl From<Kind> for u8 {
    ghost from_gives = { λ kind n. (n ≡ kind_number kind) × (n < 2) };

    fn from(kind: Kind) -> u8 {
        match kind {
            Kind::Bars => 0,
            Kind::Opens => 1,
        }
    }
}

impl Kind {
    // No TryFrom: a number above 1 is refused by `check_request`, which asks the number itself; here it counts as bars.
    pub fn of(number: u8) -> Kind
        ensures { result ≡ kind_of number }
    {
        if number == 1 { Kind::Opens } else { Kind::Bars }
    }
}
