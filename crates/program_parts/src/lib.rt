// What is part of what in program words: definitions and theorems only. The crate `program_tests` computes the tests.
#![tactic(auto)]
