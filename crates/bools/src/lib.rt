// Laws of tests that are made of tests: no code.
#![tactic(auto)]
