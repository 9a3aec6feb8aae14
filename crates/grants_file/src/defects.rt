// The fault that a defect stands for (specs/Defects).
ghost use Rattle.std.specs.Prelude.{◌≡◌};
ghost use Rattle.grants_file.specs.Defects.{defect_fault};

use crate::Defect;
use model::Fault;

impl From<Defect> for Fault {
    ghost from_gives = { λ defect fault. fault ≡ defect_fault defect };

    fn from(defect: Defect) -> Fault {
        match defect {
            Defect::Length => Fault::BadLength,
            Defect::Checksum { block } => Fault::BadChecksum { block },
            Defect::Mark { block, .. } => Fault::BadLayout { block },
            Defect::BlockNumber { block } => Fault::BadLayout { block },
            Defect::TooManyGrants { .. } => Fault::BadLayout { block: 0 },
            Defect::BlockCount { .. } => Fault::BadLayout { block: 0 },
            Defect::RecordCount { block } => Fault::BadLayout { block },
            Defect::DoorOrder { .. } => Fault::BadLayout { block: 0 },
            Defect::Padding { block } => Fault::BadLayout { block },
            Defect::Record { block, .. } => Fault::BadRecord { block },
        }
    }
}
