// Failures that are counted.
ghost use Rattle.std.specs.Prelude.{◌≡◌, Ok, IfOk, OnErr, IsErr};
ghost use Rattle.og_base.specs.Told.{HasCause};
ghost use Rattle.og_io.specs.Counts.{faults_after};

use crate::source::Failed;

// What was answered; where the call failed, the fault is counted.
pub(crate) fn counted<T: Drop, E: Drop>(faults: &mut u64, answer: Result<T, E>) -> Result<T, Failed>
    ensures given { IfOk answer (λ it. result ≡ Ok it) }
    ensures failed { OnErr answer (IsErr result) }
    ensures cause { HasCause faults.old faults.new result }
    ensures faults { faults.new ≡ faults_after result faults.old }
{
    match answer {
        Ok(it) => Ok(it),
        Err(_) => {
            *faults = faults.saturating_add(1);
            Err(Failed)
        }
    }
}
