// APA1 tables: their definitions and their laws.
#![tactic(auto)]
