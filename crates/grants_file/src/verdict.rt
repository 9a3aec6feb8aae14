// The verdict on a whole file (document 01, "Faults"): the fault that its first defect stands for.
ghost use Rattle.std.specs.Prelude.{◌≡◌};
ghost use Rattle.model.specs.Answer.{outcome_answer};
ghost use Rattle.grants_file.specs.Verdict.{file_causes, judging};

use crate::validate::validate;
use model::Fault;

// The verdict on any bytes as a file.
pub fn judge(file: &[u8]) -> Result<(), Fault>
    ensures { outcome_answer result ≡ (judging (file_causes file.now) file.now).answer }
{
    validate(file)?;
    Ok(())
}
