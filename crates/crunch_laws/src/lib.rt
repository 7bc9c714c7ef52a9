// Laws alone: what is known of a text that the machine profile accepts, and of crunching without it; that with the option of short forms off each answer of crunching is
// what it was.
#![tactic(auto)]
