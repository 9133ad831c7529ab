//! Why reading a report stopped.

use crate::fault::CheckFault;
use ea_blocks::ReadFault;

/// Why reading a report stopped.
#[derive(Clone, Copy)]
pub(crate) enum Stop {
    /// A line is not what its place requires, or memory for what the lines say was refused.
    Report(CheckFault),
    /// The device couldn't be read, or memory for its bytes was refused.
    Device(ReadFault),
}

impl From<CheckFault> for Stop {
    ghost use Rattle.std.specs.Prelude.{◌≡◌};
    ghost use Rattle.ea_check.specs.declared.form.stop.Stop.TheVariants.{Report as of_report};

    ghost from_gives = { λ fault stop. stop ≡ of_report fault };

    fn from(fault: CheckFault) -> Stop {
        Stop::Report(fault)
    }
}

impl From<ReadFault> for Stop {
    ghost use Rattle.std.specs.Prelude.{◌≡◌};
    ghost use Rattle.ea_check.specs.declared.form.stop.Stop.TheVariants.{Device as of_device};

    ghost from_gives = { λ fault stop. stop ≡ of_device fault };

    fn from(fault: ReadFault) -> Stop {
        Stop::Device(fault)
    }
}
