//! What follows from what a run does.
ghost use Rattle.std.specs.Prelude.{ℕ, Option};
ghost use Rattle.vx_base.specs.Streams.{SinkState};
ghost use Rattle.vx_commands.specs.declared.command.Command.{Command};
ghost use Rattle.vx_commands.specs.Outside.{Outside};
ghost use Rattle.vx_main.specs.Runs.{Runs};
ghost use Rattle.vx_main.specs.Statuses.{Statuses};

/// Each exit status says what it means, for every command.
pub fn status_law()
    ensures { (command : Option Command) (before now : Outside) (err err_now : SinkState) (code : ℕ) →
        Runs command before now err err_now code → Statuses command before now err err_now code }
{}
