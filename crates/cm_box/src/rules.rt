// The closure rules.
ghost use Rattle.std.specs.Prelude.{◌≡◌, ◌<◌};
ghost use Rattle.cm_box.specs.Rules.{rule_of};
ghost use Rattle.model_box.specs.Rule.{rule_number};

/// The rules in their order. Each has the name of the call, or says what of execve it stands for, from which what it
/// adds comes.
#[derive(Clone, Copy, Debug, PartialEq, Eq)]
pub enum Rule {
    SetUid,
    SetFsUid,
    SetGid,
    SetFsGid,
    SetGroups,
    CapSet,
    SecureBits,
    ExecUid,
    ExecGid,
    ExecCaps,
    ExecRoot,
    Create,
    Join,
    Maps,
}

/// How many there are.
pub const RULES: u32 = 14;

impl Rule {
    /// The rule at that place of their order, from 0 on. It takes no memory.
    pub fn of_number(number: u32) -> Rule
        requires { number < 14 }
        ensures { rule_number (rule_of result) ≡ number }
    {
        match number {
            0 => Rule::SetUid,
            1 => Rule::SetFsUid,
            2 => Rule::SetGid,
            3 => Rule::SetFsGid,
            4 => Rule::SetGroups,
            5 => Rule::CapSet,
            6 => Rule::SecureBits,
            7 => Rule::ExecUid,
            8 => Rule::ExecGid,
            9 => Rule::ExecCaps,
            10 => Rule::ExecRoot,
            11 => Rule::Create,
            12 => Rule::Join,
            _ => Rule::Maps,
        }
    }
}
