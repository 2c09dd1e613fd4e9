// Every public call, once, under its C name (include/rota.h): called by Rattle programs as it is, and exported to C by crate rota_c. None
// has a `requires`. Each answer, and each buffer lent, is one function of what the call got: the definitions are in model's specs.
// Each body tests, refuses and runs its search: lines that say which tests these are, and no more of them with the search in a closure.
// Some answers in proofs/ would be found without: with them a wrong answer of tests/contracts is refused at its own place, and sooner.
#![tactic(auto)]

mod before_count;
pub mod counting;
pub mod file_plans;
pub mod files;
pub mod lister;
pub mod numbers;
pub mod plans;
pub mod pricing;
pub mod sheets;
pub mod untallied;
pub mod usable;
