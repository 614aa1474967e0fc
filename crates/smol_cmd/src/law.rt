//! Laws of what lines give. The functions do nothing: each law is a contract.
ghost use Rattle.std.specs.Prelude.{◌≡◌, ◌<◌, ◌≤◌, ◌++◌, ℕ, List, Ok, length};
ghost use Rattle.smol_text.specs.Reading.{Stated};
ghost use Rattle.smol_types.specs.declared.command.Command.{Command};
ghost use Rattle.smol_types.specs.declared.wall.Wall.{Wall};
ghost use Rattle.smol_types.specs.Commands.{IsCommand};
ghost use Rattle.smol_types.specs.Limits.{most_commands, most_outputs};
ghost use Rattle.smol_line.specs.Axes.{AreAxes, walls_of};
ghost use Rattle.smol_cmd.specs.Known.{Known};
ghost use Rattle.smol_cmd.specs.Cmd.{cmd_in};
ghost use Rattle.smol_cmd.specs.OutputFiles.{output_files_in};

/// The command of a line without a fault is sound, and there was room for it.
pub fn commands_are_sound()
    ensures sound { (known : Known) (count : ℕ) (line : Stated) (command : Command)
        → cmd_in known count line ≡ Ok command → AreAxes known.axes
        → IsCommand (length known.species) (length known.compartments) (length known.outputs) (walls_of known.axes) command }
    ensures room { (known : Known) (count : ℕ) (line : Stated) (command : Command)
        → cmd_in known count line ≡ Ok command → count < most_commands }
{}

/// A sound command stays so where there are more species, compartments and output files.
pub fn commands_stay_sound()
    ensures { (a b c a_new b_new c_new : ℕ) (walls : List Wall) (command : Command) → IsCommand a b c walls command
        → a ≤ a_new → b ≤ b_new → c ≤ c_new → IsCommand a_new b_new c_new walls command }
{}

/// The names of a line without a fault leave no more output files than there may be.
pub fn output_files_are_few()
    ensures { (outputs : List (List ℕ)) (line : Stated) (more : List (List ℕ))
        → output_files_in outputs line ≡ Ok more → length (outputs ++ more) ≤ most_outputs }
{}
