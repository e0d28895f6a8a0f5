// The definitions and theorems of the plan library. No code: see specs/ for what a reader must believe.
#![tactic(auto)]
