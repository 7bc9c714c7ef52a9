// Laws alone: a step that comes nearer to an end, taken again and again; a number in decimal; what holds of each entry of a list.
#![tactic(auto)]
