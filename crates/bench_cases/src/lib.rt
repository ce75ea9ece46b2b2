// The bench cases: one table, and one theorem that every case holds.
#![tactic(auto)]
