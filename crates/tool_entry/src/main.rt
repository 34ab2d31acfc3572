// The tool as a program: what it answers is the exit status.
#![tactic(auto)]

ghost use Rattle.std.specs.Prelude.{◌≡◌, true};
ghost use Rattle.std.specs.Process.{exit_status};
ghost use Rattle.system.specs.Status.{is_status};

use std::process::ExitCode;
use std::rt::{Env, Files};
use system::Io;

fn main(rt: HostRuntime) -> ExitCode {
    ended(&Io {
        rt: &rt,
        out: &rt.stdout(),
        err: &rt.stderr(),
    })
}

fn ended<R: Files + Env + Input + Eprint, O: Print, E: Print>(io: &Io<R, O, E>) -> ExitCode
    ensures { is_status (exit_status result) ≡ true }
{
    ExitCode::from(ray_main(io))
}

pub fn ray_main<R: Files + Env + Input + Eprint, O: Print, E: Print>(io: &Io<R, O, E>) -> u8
    ensures { is_status result ≡ true }
{
    tool::run(io)
}
