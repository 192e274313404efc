// No code. What every other crate shares: tests and choices, bytes at a place of a list, the laws that close the returns
// of a function of tests, and two theorems over any machine, unwinding and commutation.
#![tactic(auto)]
