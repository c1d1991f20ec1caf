//! Laws of passes.
ghost use Rattle.std.specs.Prelude.{◌≡◌};
ghost use Rattle.cb_include.specs.declared.command.Command.{Command as Told};
ghost use Rattle.cb_pass.specs.States.{Outcome};
ghost use Rattle.cb_pass.specs.Files.{Files, Agree};
ghost use Rattle.cb_pass.specs.Passes.{IsPass};

use cb_cond::one_condition;
use cb_expand::one_expansion;
use cb_macro::one_word;

/// The pass of a command over files has at most one outcome.
pub fn one_pass()
    ensures { (files : Files) (command : Told) (a b : Outcome)
        → IsPass files command a → IsPass files command b → a ≡ b }
{
    one_expansion();
    one_condition();
    one_word();
}

/// The pass of a command has the same outcome over any other files that agree with these on its probes, in absence or
/// in skeleton: what stands at other paths, and on which lines, does not matter.
pub fn same_pass()
    ensures { (files other : Files) (command : Told) (end : Outcome) → IsPass files command end
        → Agree files other end.probes → IsPass other command end }
{}
