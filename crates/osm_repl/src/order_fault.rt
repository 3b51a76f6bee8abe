//! Why an order isn't carried out.

ghost use Rattle.std.specs.Prelude.{◌≡◌};

use osm_runs::fault::RunFault;
use osm_script::fault::ScriptFault;
use thiserror::Error;

/// Why an order isn't carried out.
#[derive(Clone, Copy, Debug, PartialEq, Eq, Error)]
pub enum OrderFault {
    /// The run stopped, or its report couldn't be written.
    #[error("{0}")]
    Run(RunFault),
    /// The script isn't replayed.
    #[error("{0}")]
    Script(ScriptFault),
}

impl From<RunFault> for OrderFault {
    ghost use Rattle.std.specs.Prelude.{◌≡◌};
    ghost use Rattle.osm_repl.specs.declared.order_fault.OrderFault.TheVariants.{Run};

    ghost from_gives = { λ given fault. fault ≡ Run given };

    fn from(fault: RunFault) -> OrderFault {
        OrderFault::Run(fault)
    }
}

impl From<ScriptFault> for OrderFault {
    ghost use Rattle.std.specs.Prelude.{◌≡◌};
    ghost use Rattle.osm_repl.specs.declared.order_fault.OrderFault.TheVariants.{Script};

    ghost from_gives = { λ given fault. fault ≡ Script given };

    fn from(fault: ScriptFault) -> OrderFault {
        OrderFault::Script(fault)
    }
}
