// Every public call exported to C under its name (include/rota.h), where a slice is a pointer and a length in elements. Each calls crate
// rota's function of that name and has its clauses: a crate is a library or a static library, so C needs them once more.
#![tactic(auto)]

mod counting;
mod file_plans;
mod files;
mod lister;
mod numbers;
mod plans;
mod pricing;
mod sheets;
mod untallied;
mod usable;
