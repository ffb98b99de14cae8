// The names of the rules, one table (choice).
ghost use Rattle.std.specs.Prelude.{◌≡◌};
ghost use Rattle.cm_box.specs.Rules.{rule_of};
ghost use Rattle.model_box.specs.RuleNames.{rule_name};

use crate::Rule;

impl Rule {
    /// Its name in a report, as `exec_uid`. It takes no memory.
    pub fn name(self) -> &'static str
        ensures { result.now ≡ rule_name (rule_of self) }
    {
        match self {
            Rule::SetUid => "setuid",
            Rule::SetFsUid => "setfsuid",
            Rule::SetGid => "setgid",
            Rule::SetFsGid => "setfsgid",
            Rule::SetGroups => "setgroups",
            Rule::CapSet => "capset",
            Rule::SecureBits => "securebits",
            Rule::ExecUid => "exec_uid",
            Rule::ExecGid => "exec_gid",
            Rule::ExecCaps => "exec_caps",
            Rule::ExecRoot => "exec_root",
            Rule::Create => "create",
            Rule::Join => "join",
            Rule::Maps => "maps",
        }
    }
}
