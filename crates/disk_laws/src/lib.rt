// Theorems only: what the calls over a disk keep, and what they leave alone. The definitions stand in `disk_rules`.
#![tactic(auto)]
