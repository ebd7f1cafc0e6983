// No code: demand 3, the one claim over whole lists of calls, of the functions of the machine.
#![tactic(auto)]
