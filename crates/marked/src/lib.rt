// No code: the marked tables and runs of document 01, shown of the definitions of tables, check and plain machine.
#![tactic(auto)]
