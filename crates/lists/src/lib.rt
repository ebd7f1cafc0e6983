// Lists: only definitions and laws.
#![tactic(auto)]
