// The operator's command.
#![tactic(auto)]

ghost use Rattle.command_status.specs.Status.{ExitStatus};

use std::process::ExitCode;

fn main(rt: HostRuntime) -> ExitCode {
    ExitCode::from(sclk_run(rt))
}

// The command's exit status.
pub fn sclk_run(rt: HostRuntime) -> u8
    ensures { ExitStatus result }
{
    command::run(rt)
}
