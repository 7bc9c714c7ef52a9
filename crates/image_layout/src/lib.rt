// Laws alone: the bytes of an image, and that both readers read them back.
#![tactic(auto)]
