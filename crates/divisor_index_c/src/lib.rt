// The archive for C: each export calls the function of the same name in a library, states its clauses again, and does nothing else. The doors
// stand twice since a crate is a library, which programs and claims can use, or a static library, which C can.
#![tactic(auto)]

mod index;
mod labels;
mod masks;
mod monomials;
