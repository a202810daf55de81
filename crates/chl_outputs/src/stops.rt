ghost use Rattle.std.specs.Prelude.{◌≡◌};
ghost use Rattle.chl_outputs.specs.Stops.{build_stop};

use chl_inputs::Stop;
use hub_index::BuildFault;

/// How a command stops at a fault of a build.
pub fn stop_at(fault: BuildFault) -> Stop
    ensures { result ≡ build_stop fault }
{
    match fault {
        BuildFault::Overflow { v, hub } => Stop::Overflow { v, hub },
        BuildFault::NoMemory => Stop::NoMemory,
    }
}
