// The scope's checked tables and call lists, computed from the definitions: all of it is in specs/.
#![tactic(auto)]
