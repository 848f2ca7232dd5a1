//! What a worker makes of a turn's answer.

ghost use Rattle.run_threads.specs.TurnAnswers.{fetch_answer, pump_answer};
ghost use Rattle.std.specs.Prelude.{◌≡◌};

use request_attempts::turn_fault::TurnFault;
use stm_turns::{PumpFault, Pumped};
use tiny_stm::FetchFault;

/// The durable number; a turn that is another's is a refusal.
pub fn pumped(answer: Result<Pumped, PumpFault>) -> Result<u64, TurnFault>
    ensures { result ≡ pump_answer answer }
{
    match answer {
        Ok(pumped) => Ok(pumped.durable),
        Err(PumpFault::Held { seen: _ }) => Err(TurnFault::Refused),
        Err(PumpFault::Device) => Err(TurnFault::Fault),
        Err(PumpFault::Dead) => Err(TurnFault::Fault),
    }
}

/// A turn that is another's is a refusal, and so is a page that can't be shown now.
pub fn fetched(answer: Result<(), FetchFault>) -> Result<(), TurnFault>
    ensures { result ≡ fetch_answer answer }
{
    match answer {
        Ok(()) => Ok(()),
        Err(FetchFault::Held { seen: _ }) => Err(TurnFault::Refused),
        Err(
            FetchFault::Behind {
                touch: _,
                reproduced: _,
            },
        ) => Err(TurnFault::Refused),
        Err(FetchFault::AllPinned { page: _, seen: _ }) => Err(TurnFault::Refused),
        Err(FetchFault::Device) => Err(TurnFault::Fault),
        Err(FetchFault::Dead) => Err(TurnFault::Fault),
    }
}
